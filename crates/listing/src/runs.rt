// A run: records of one kind, one behind the other. An instruction's arguments are one, and its results the next.
ghost use Rattle.std.specs.Prelude.{◌≡◌, ◌≤◌};
ghost use Rattle.rules.specs.Records.{record_count};
ghost use Rattle.listing.specs.Parted.{run_end};

use records::file::File;

// The first place from a place on, and not behind place end, where no record of a kind stands: `graph::places::next_place` with the test
// negated, for which a closure would say no more than the chain below does.
pub fn run_end(file: File<'_>, kind: u32, from: usize, end: usize) -> usize
    requires { (from ≤ end) × (end ≤ record_count file.bytes.now) }
    ensures { (result ≡ run_end file.entry.bytes.now kind from end) × (result ≤ end) × (from ≤ result) }
{
    (from..end)
        .find(|&i| file.kind_at(i) != kind)
        .unwrap_or(end)
}
