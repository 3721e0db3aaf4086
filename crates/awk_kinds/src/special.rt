// Awk's own variables, by a row for each.

ghost use Rattle.std.specs.Prelude.{◌≡◌, ◌↔◌, ℕ, List, Some, bytes_eq, find};
ghost use Rattle.std.specs.List.{list_any};
ghost use Rattle.std.specs.Option.{option_map};
ghost use Rattle.awk_kinds.specs.definitions.Fits.{is_special};
ghost use Rattle.awk_kinds.specs.support.SpecialIndices.{kept, names_in, named_by};

/// The special variables that a run keeps by itself (NF is counted in the record). (POSIX awk,
/// Variables and Special Variables)
#[derive(Clone, Copy)]
pub enum Special {
    Argc,
    Convfmt,
    Filename,
    Fnr,
    Fs,
    Nr,
    Ofmt,
    Ofs,
    Ors,
    Rlength,
    Rs,
    Rstart,
    Subsep,
}

/// What a special variable holds as the run begins.
#[derive(Clone, Copy)]
pub enum FirstValue {
    Nothing,
    /// How many elements ARGV has.
    ArgumentCount,
    /// No record was read.
    Zero,
    Text(&'static [u8]),
}

/// What one of awk's own variables is.
#[derive(Clone, Copy)]
pub enum OwnVariable {
    Array,
    /// NF, which is counted in the record.
    FieldCount,
    /// A scalar that a run keeps by itself.
    Kept(Special, FirstValue),
}

/// How many of awk's own variables are arrays, which stand before the others.
pub(crate) const ARRAY_COUNT: usize = 2;

/// Awk's own variables: a name, and what it is. (POSIX awk, Variables and Special Variables)
pub const OWN_VARIABLES: [(&[u8], OwnVariable); 16] = [
    (b"ARGV", OwnVariable::Array),
    (b"ENVIRON", OwnVariable::Array),
    (
        b"ARGC",
        OwnVariable::Kept(Special::Argc, FirstValue::ArgumentCount),
    ),
    (
        b"CONVFMT",
        OwnVariable::Kept(Special::Convfmt, FirstValue::Text(b"%.6g")),
    ),
    (
        b"FILENAME",
        OwnVariable::Kept(Special::Filename, FirstValue::Nothing),
    ),
    (b"FNR", OwnVariable::Kept(Special::Fnr, FirstValue::Zero)),
    (
        b"FS",
        OwnVariable::Kept(Special::Fs, FirstValue::Text(b" ")),
    ),
    (b"NF", OwnVariable::FieldCount),
    (b"NR", OwnVariable::Kept(Special::Nr, FirstValue::Zero)),
    (
        b"OFMT",
        OwnVariable::Kept(Special::Ofmt, FirstValue::Text(b"%.6g")),
    ),
    (
        b"OFS",
        OwnVariable::Kept(Special::Ofs, FirstValue::Text(b" ")),
    ),
    (
        b"ORS",
        OwnVariable::Kept(Special::Ors, FirstValue::Text(b"\n")),
    ),
    (
        b"RLENGTH",
        OwnVariable::Kept(Special::Rlength, FirstValue::Nothing),
    ),
    (
        b"RS",
        OwnVariable::Kept(Special::Rs, FirstValue::Text(b"\n")),
    ),
    (
        b"RSTART",
        OwnVariable::Kept(Special::Rstart, FirstValue::Nothing),
    ),
    (
        b"SUBSEP",
        OwnVariable::Kept(Special::Subsep, FirstValue::Text(b"\x1c")),
    ),
];

/// What a name stands for in a table.
fn look_up<T: Copy>(table: &[(&[u8], T)], name: &[u8]) -> Option<T>
    ensures { result ≡ option_map (λ row. row.1) (find (λ row. bytes_eq name.now row.0.now) table.now) }
{
    table.iter().find(|row| row.0 == name).map(|row| row.1)
}

/// Whether a name is one of a table's.
fn is_among(table: &[(&[u8], OwnVariable)], name: &[u8]) -> bool
    ensures { result ≡ list_any (λ row. bytes_eq name.now row.0.now) table.now }
{
    table.iter().any(|row| name == row.0)
}

/// Whether the name is one of awk's own variables.
pub fn is_special(name: &[u8]) -> bool
    ensures { result ≡ is_special name.now }
{
    is_among(&OWN_VARIABLES, name)
}

/// The variable that a run keeps by itself, if this is one.
fn kept(own: Option<OwnVariable>) -> Option<Special>
    ensures { result ≡ kept own }
{
    match own {
        Some(OwnVariable::Kept(special, _)) => Some(special),
        Some(OwnVariable::Array | OwnVariable::FieldCount) | None => None,
    }
}

/// The variable of a name that has one of these rows, if a run keeps it by itself.
fn kept_among(rows: &[(&[u8], OwnVariable)], name: &[u8]) -> Option<Special>
    ensures { result ≡ named_by (names_in rows.now) name.now }
{
    kept(look_up(rows, name))
}

impl Special {
    ghost use Rattle.awk_kinds.specs.definitions.Variables.{name_of};
    ghost use Rattle.awk_kinds.specs.support.SpecialIndices.{index_of, special_named};

    /// The special variable of a name.
    pub fn named(name: &[u8]) -> Option<Special>
        ensures named { result ≡ special_named name.now }
        ensures names { (s : Special) → (result ≡ Some s) ↔ (name.now ≡ name_of s) }
    {
        kept_among(&OWN_VARIABLES, name)
    }

    /// Where it stands among them.
    #[inline(always)]
    pub fn index(self) -> usize
        ensures { result ≡ index_of self }
    {
        self as usize
    }
}
