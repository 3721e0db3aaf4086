// The names that have a meaning of their own.

/// What to write instead of a name that is left out.
pub(crate) fn left_out_advice(name: &[u8]) -> &'static [u8] {
    match name {
        b"func" => b"write function",
        b"rand" | b"srand" => {
            b"left out: count by x = (x * 1103515245 + 12345) % 2147483648, or read a number from a command"
        }
        b"sqrt" =>
            b"left out, as there are no fractions: search the root by halves, with whole numbers",
        _ => b"left out, as there are no fractions",
    }
}

/// What to write instead of a function that other awks have of their own.
pub(crate) fn foreign_advice(name: &[u8]) -> &'static [u8] {
    match name {
        b"gensub" => b"it is gawk's own: take a copy and use gsub, or match and substr",
        b"systime" | b"strftime" | b"mktime" => {
            b"it is gawk's own: read what the command date prints, as \"date +%s\" | getline now"
        }
        b"asort" | b"asorti" => b"it is gawk's own: print to the command sort",
        b"strtonum" => b"it is gawk's own: digits are a number by themselves, as x + 0",
        b"and" | b"or" | b"xor" | b"lshift" | b"rshift" | b"compl" => {
            b"it is gawk's own: compute with /, % and 2 ^ n"
        }
        b"patsplit" | b"isarray" | b"typeof" => b"it is gawk's own",
        b"printf" | b"print" => b"a blank belongs behind it",
        b"strtod" | b"round" | b"abs" | b"ceil" | b"floor" => {
            b"there is none: x < 0 ? -x : x is the absolute value, and numbers are whole"
        }
        _ => b"",
    }
}

/// Whether a name is one of gawk's own variables, or begins a rule there.
pub(crate) fn is_foreign(name: &[u8]) -> bool {
    matches!(
        name,
        b"ARGIND"
            | b"BEGINFILE"
            | b"BINMODE"
            | b"ENDFILE"
            | b"ERRNO"
            | b"FIELDWIDTHS"
            | b"FPAT"
            | b"FUNCTAB"
            | b"IGNORECASE"
            | b"LINT"
            | b"PROCINFO"
            | b"ROUNDMODE"
            | b"PREC"
            | b"RT"
            | b"SYMTAB"
            | b"TEXTDOMAIN"
    )
}

/// What to write instead of one of gawk's own variables.
pub(crate) fn foreign_variable_advice(name: &[u8]) -> &'static [u8] {
    match name {
        b"IGNORECASE" => b"compare tolower($0) ~ /pattern/",
        b"FPAT" | b"FIELDWIDTHS" => b"cut the record by match and substr",
        b"BEGINFILE" => b"a rule FNR == 1 is tried at each file's first record",
        b"ENDFILE" =>
            b"a rule FNR == 1 && NR > 1 is tried behind each file but the last, and END behind all",
        b"PROCINFO" =>
            b"a walk goes in the order in which the keys came; for another print to sort",
        b"ARGIND" => b"FILENAME is the file's name",
        _ => b"",
    }
}

/// What to write instead of a word that other languages have.
pub(crate) fn word_advice(name: &[u8]) -> &'static [u8] {
    match name {
        b"true" | b"True" | b"TRUE" => b"truth is 1",
        b"false" | b"False" | b"FALSE" => b"untruth is 0",
        b"null" | b"NULL" | b"nil" | b"None" | b"undefined" => b"the empty text is \"\"",
        b"not" => b"not is written !",
        b"and" => b"and is written &&",
        b"or" => b"or is written ||",
        _ => b"",
    }
}

/// Words of awk that are a value by themselves, besides its own variables.
pub(crate) const VALUE_WORDS: [&[u8]; 2] = [b"getline", b"length"];

/// Words at which a statement or an item begins.
pub(crate) const LEADING_WORDS: [&[u8]; 17] = [
    b"BEGIN",
    b"END",
    b"function",
    b"if",
    b"else",
    b"while",
    b"for",
    b"do",
    b"break",
    b"continue",
    b"next",
    b"nextfile",
    b"exit",
    b"return",
    b"delete",
    b"print",
    b"printf",
];

/// Functions, whose list stands behind them.
pub(crate) const CALLED_WORDS: [&[u8]; 13] = [
    b"substr", b"index", b"split", b"sub", b"gsub", b"match", b"sprintf", b"tolower", b"toupper",
    b"int", b"system", b"close", b"fflush",
];

/// Whether a word is one of these.
pub(crate) fn is_among(words: &[&[u8]], word: &[u8]) -> bool {
    for known in words {
        if *known == word {
            return true;
        }
    }
    false
}
