// Rows of functions over texts, and of formats.

ghost use Rattle.std.specs.Prelude.{List, [], ◌∷◌, codes};
ghost use Rattle.awk_semantics.specs.declared.outcome.Outcome.TheVariants.{Ended, Fault};
ghost use Rattle.awk_semantics.specs.declared.fault.Fault.TheVariants.{FormatRefused};
ghost use Rattle.awk_rows.specs.definitions.Row.{Gives};

/// What functions of texts give.
pub fn functions()
    // awk 'BEGIN{print substr("hello",0,3), substr("hello",-1), length("abc")}'
    ensures positions_before_the_first_use_up_the_count { Gives (codes "BEGIN{print substr(\"hello\",0,3), substr(\"hello\",-1), length(\"abc\")}") (Ended 0)
        (codes "he hello 3\n") }
    // awk 'BEGIN{print index("abcabc","ca"), int("-7x")}'
    ensures a_position_and_the_number_in_front_of_a_text { Gives (codes "BEGIN{print index(\"abcabc\",\"ca\"), int(\"-7x\")}") (Ended 0) (codes "3 -7\n") }
    // awk 'BEGIN{print tolower("aB1"), toupper("aB1"), sprintf("%03d",7)}'
    ensures small_and_capital_letters_and_a_formatted_text { Gives (codes "BEGIN{print tolower(\"aB1\"), toupper(\"aB1\"), sprintf(\"%03d\",7)}") (Ended 0)
        (codes "ab1 AB1 007\n") }
{}

/// What printf prints.
pub fn formats()
    // awk 'BEGIN{printf "%5d|%-5d|%05d|%.3d|%x\n",-42,42,-42,7,-1}'
    ensures numbers_in_widths_and_with_least_digits { Gives (codes "BEGIN{printf \"%5d|%-5d|%05d|%.3d|%x\\n\",-42,42,-42,7,-1}") (Ended 0)
        (codes "  -42|42   |-0042|007|ffffffffffffffffffffffffffffffff\n") }
    // awk 'BEGIN{printf "%c%c",0,255}'
    ensures a_number_is_printed_as_its_byte { Gives (codes "BEGIN{printf \"%c%c\",0,255}") (Ended 0) (0 ∷ 255 ∷ []) }
    // awk 'BEGIN{printf "%c",256}'
    ensures a_number_that_is_no_byte_is_a_fault { Gives (codes "BEGIN{printf \"%c\",256}") (Fault FormatRefused) [] }
    // awk 'BEGIN{printf "%#o %#x %+d % d %.0d|",8,255,5,5,0}'
    ensures flags_of_numbers { Gives (codes "BEGIN{printf \"%#o %#x %+d % d %.0d|\",8,255,5,5,0}") (Ended 0) (codes "010 0xff +5  5 |") }
    // awk 'BEGIN{printf "%.2s|%3c|","abc","xyz"}'
    ensures a_text_is_cut_and_a_character_set_to_the_right { Gives (codes "BEGIN{printf \"%.2s|%3c|\",\"abc\",\"xyz\"}") (Ended 0) (codes "ab|  x|") }
    // awk 'BEGIN{printf "%5"}'
    ensures an_unended_directive_is_a_fault { Gives (codes "BEGIN{printf \"%5\"}") (Fault FormatRefused) [] }
    // awk 'BEGIN{printf "%65536d",1}'
    ensures a_width_above_the_greatest_is_a_fault { Gives (codes "BEGIN{printf \"%65536d\",1}") (Fault FormatRefused) [] }
{}
