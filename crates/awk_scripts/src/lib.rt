//! The programs of awk that stand in shell scripts and makefiles.
//!
//! Where a word of a command is awk, the first word behind its options is its program. It is given where it stands in
//! quotes; what the shell or make puts into it isn't known. Remarks and here-documents are passed over; of a makefile
//! the lines of recipes are read.
#![tactic(auto)]

mod embedded;
mod makefile;
mod reader;
mod words;

pub use embedded::Embedded;
pub use makefile::is_makefile;
pub use reader::programs_in;
