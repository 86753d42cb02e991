// Where the records of a kind stand: the tables of where blocks, instructions and edges start.
ghost use Rattle.std.specs.Prelude.{◌≡◌, ◌<◌, ◌≤◌, length};
ghost use Rattle.rules.specs.Records.{record_count};
ghost use Rattle.rules.specs.Lists.{padded};
ghost use Rattle.graph.specs.Zeros.{Zeros};
ghost use Rattle.graph.specs.Next.{next_place};
ghost use Rattle.graph.specs.Placed.{places_of, place_table};

use records::file::File;

// The place of each record of a kind, and behind the last the number of records. Answers how many there are.
pub fn places_of(file: File<'_>, kind: u32, places: &mut [usize]) -> usize
    requires { (length (places_of kind file.bytes.now) < length places.old) × Zeros places.old }
    ensures { (result ≡ length (places_of kind file.entry.bytes.now)) × (places.new ≡ padded (length places.old) (place_table kind file.entry.bytes.now)) }
{
    let records = file.record_count();
    // Counted beside the loop: `enumerate` would count the records, and not those found.
    let mut found = 0;
    for i in 0..records {
        if file.kind_at(i) == kind {
            places[found] = i;
            found += 1;
        }
    }
    places[found] = records;
    found
}

// The place of the first record of a kind from a place on and before place end, or end.
pub fn next_place(file: File<'_>, kind: u32, from: usize, end: usize) -> usize
    requires { (from ≤ end) × (end ≤ record_count file.bytes.now) }
    ensures { result ≡ next_place file.entry.bytes.now kind from end }
{
    (from..end)
        .find(|&i| file.kind_at(i) == kind)
        .unwrap_or(end)
}
