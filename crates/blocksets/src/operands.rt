// What a record does with a value, and the walk back over records that liveness is: what is used gets live, what is
// defined does not stay so.
ghost use Rattle.std.specs.Prelude.{◌≡◌, ◌∷◌, [], ◌<◌, ◌≤◌, T};
ghost use Rattle.rules.specs.Lists.{keep, update, adding};
ghost use Rattle.rules.specs.Records.{kind, record_at, record_count};
ghost use Rattle.rules.specs.File.{function_in};
ghost use Rattle.rules.specs.Graph.{is_marked};
ghost use Rattle.rows.specs.Rows.{rows, HasRow};
ghost use Rattle.graph.specs.Between.{between};
ghost use Rattle.blocksets.specs.Operands.{passed_operand, operand_of, live_before, with_defined, in_row, back, defined_in};
ghost use Rattle.blocksets.specs.InRows.{InRows};

use records::file::File;
use rows::{insert, insert_if, remove};
use rules::{EdgeArgument, Record, kinds};

// What a record may do with a value. A context is no use: the rule adds arguments and edge arguments only.
#[derive(Clone, Copy)]
pub enum Operand {
    Defined(u32),
    Used(u32),
}

// An edge that passes a value uses it; returned and exception words are made on the edge.
fn passed_operand(x: EdgeArgument) -> Option<Operand>
    ensures { result ≡ passed_operand x }
{
    match x {
        EdgeArgument::Value(v) => Some(Operand::Used(v)),
        EdgeArgument::Returned(_) | EdgeArgument::Exception(_) => None,
    }
}

// What the record of an edge argument does with a value.
fn operand_of(r: Record) -> Option<Operand>
    requires { kind r ≡ 8 }
    ensures { result ≡ operand_of r }
{
    match r {
        Record::EdgeArgument(x) => passed_operand(x),
        _ => None,
    }
}

// What record i does with a value; only an edge argument is decoded. The kinds above 6 are set apart by their size: one match over all kinds was tried, and so was one
// over the decoded record, but the machine code of both is a table of jumps, and the walk takes a quarter longer.
fn operand_at(file: File<'_>, i: usize) -> Option<Operand>
    requires { i < record_count file.bytes.now }
    ensures { result ≡ operand_of (record_at file.entry.bytes.now i) }
{
    let w = file.words_at(i);
    if w.kind > kinds::ARGUMENT {
        return if w.kind == kinds::EDGE_ARGUMENT {
            operand_of(file.decoded_at(i))
        } else {
            None
        };
    }
    match w.kind {
        kinds::PARAMETER | kinds::RESULT => Some(Operand::Defined(w.second)),
        kinds::ARGUMENT => Some(Operand::Used(w.second)),
        _ => None,
    }
}

// A row gets a value if it is marked. No branch hangs on the mark: values are marked in no order that could be foretold.
fn insert_marked(file: File<'_>, v: u32, t: &mut [u64], row: usize)
    requires { InRows file.bytes.now × HasRow t.old row }
    ensures { rows t.new ≡ update row (adding (keep (is_marked (function_in file.entry.bytes.now)) (v ∷ [])) (rows t.old row)) (rows t.old) }
{
    insert_if(t, row, v as usize, file.is_marked(v));
}

// From what is live behind a record to what is live before it.
fn go_before(file: File<'_>, x: Option<Operand>, t: &mut [u64], row: usize)
    requires { InRows file.bytes.now × T (in_row x) × HasRow t.old row }
    ensures { rows t.new ≡ update row (live_before (function_in file.entry.bytes.now) x (rows t.old row)) (rows t.old) }
{
    match x {
        Some(Operand::Defined(v)) => remove(t, row, v as usize),
        Some(Operand::Used(v)) => insert_marked(file, v, t, row),
        None => {}
    }
}

// From what is live behind record i to what is live before it.
pub fn step_back(file: File<'_>, i: usize, t: &mut [u64], row: usize)
    requires { InRows file.bytes.now × (i < record_count file.bytes.now) × HasRow t.old row }
    ensures { rows t.new ≡ update row (live_before (function_in file.entry.bytes.now) (operand_of (record_at file.entry.bytes.now i)) (rows t.old row)) (rows t.old) }
{
    go_before(file, operand_at(file, i), t, row);
}

// From what is live behind some records to what is live before them, the last one first.
pub fn go_back(file: File<'_>, start: usize, end: usize, t: &mut [u64], row: usize)
    requires { InRows file.bytes.now × (start ≤ end) × (end ≤ record_count file.bytes.now) × HasRow t.old row }
    ensures { rows t.new ≡ update row (back (function_in file.entry.bytes.now) (between file.entry.bytes.now start end) (rows t.old row)) (rows t.old) }
{
    for i in (start..end).rev() {
        step_back(file, i, t, row);
    }
}

// From a block's uses and kills behind a record to those with it. `go_before` and an insert behind it was tried: the operand is then
// told twice, and the walk takes a twelfth longer.
fn collect_operand(
    file: File<'_>,
    x: Option<Operand>,
    uses: &mut [u64],
    kills: &mut [u64],
    row: usize,
)
    requires { InRows file.bytes.now × T (in_row x) × HasRow uses.old row × HasRow kills.old row }
    ensures { (rows uses.new ≡ update row (live_before (function_in file.entry.bytes.now) x (rows uses.old row)) (rows uses.old)) × (rows kills.new ≡ update row (with_defined x (rows kills.old row)) (rows kills.old)) }
{
    match x {
        Some(Operand::Defined(v)) => {
            remove(uses, row, v as usize);
            insert(kills, row, v as usize);
        }
        Some(Operand::Used(v)) => insert_marked(file, v, uses, row),
        None => {}
    }
}

// One row gets what some records use before they define it, another what they define: both in one walk, the last record first.
pub fn collect_sets(
    file: File<'_>,
    start: usize,
    end: usize,
    uses: &mut [u64],
    kills: &mut [u64],
    row: usize,
)
    requires { InRows file.bytes.now × (start ≤ end) × (end ≤ record_count file.bytes.now) × HasRow uses.old row × HasRow kills.old row }
    ensures { (rows uses.new ≡ update row (back (function_in file.entry.bytes.now) (between file.entry.bytes.now start end) (rows uses.old row)) (rows uses.old)) × (rows kills.new ≡ update row (defined_in (between file.entry.bytes.now start end) (rows kills.old row)) (rows kills.old)) }
{
    for i in (start..end).rev() {
        collect_operand(file, operand_at(file, i), uses, kills, row);
    }
}
