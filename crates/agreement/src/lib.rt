// The agreement of rod and logger: the claims are in specs/ and their proofs in proofs/.
// `compile_and_read` and `ask_both` are calls, and take every byte string, condition number, signal set and slice.
#![tactic(auto)]

ghost use Rattle.std.specs.Prelude.{◌≡◌, ◌*◌, ◌≤◌, length};
ghost use Rattle.layout.specs.Meaning.{listing_answer};
ghost use Rattle.rod.specs.Reading.{rod_answer};
ghost use Rattle.compiler.specs.Compiling.{left_by, compiled_listing};
ghost use Rattle.agreement.specs.CompiledReading.{compiled_reading};
ghost use Rattle.agreement.specs.Meaning.{reading_meaning};
ghost use Rattle.agreement.specs.Both.{both_meaning, both_say, Held};

// The rod's answer on a compiled listing: the first words, four for each record.
fn read_compiled(words: &[u32], records: usize, set: u16) -> Result<bool, layout::Fault>
    requires { 4 * records ≤ length words.now }
    ensures { listing_answer result ≡ rod_answer (compiled_listing records words.now) set }
{
    let end = layout::RECORD_WORDS * records;
    rod::decide(&words[..end], set)
}

// What the rod says of a condition just compiled.
pub fn compile_and_read(
    bytes: &[u8],
    condition: u32,
    set: u16,
    words: &mut [u32],
) -> Result<Result<bool, layout::Fault>, compiler::CompileError>
    ensures result_value { reading_meaning result ≡ compiled_reading bytes.now condition set words.old }
    ensures words_after { words.new ≡ left_by bytes.now condition words.old }
{
    let compiled = compiler::compile(bytes, condition, words)?;
    Ok(read_compiled(words, compiled, set))
}

// What rod and logger say of a condition just compiled.
#[derive(Clone, Copy)]
pub struct Both {
    // How many records were compiled.
    pub records: usize,
    pub rod: Result<bool, layout::Fault>,
    pub logger: Result<bool, book::Declined>,
}

// Demand 3 of one set, as a call: the office compiles, the rod reads the compiled listing, and the logger decides from
// the book.
pub fn ask_both(
    bytes: &[u8],
    condition: u32,
    set: u16,
    words: &mut [u32],
) -> Result<Both, compiler::CompileError>
    ensures result_value { both_meaning result ≡ both_say bytes.now condition set (length words.old) }
    ensures words_after { words.new ≡ left_by bytes.now condition words.old }
    ensures held { Held bytes.now condition words.new result }
{
    let records = compiler::compile(bytes, condition, words)?;
    let rod = read_compiled(words, records, set);
    let logger = score::decide(bytes, condition, set);
    Ok(Both {
        records,
        rod,
        logger,
    })
}
