// The list of one instruction: what is live across it if it is a safepoint.
ghost use Rattle.std.specs.Prelude.{◌≡◌, cond, ◌<◌};
ghost use Rattle.std.proofs.Math.Option.{none, some};
ghost use Rattle.rules.specs.Records.{encode, is_safepoint, record_at, record_count};
ghost use Rattle.rows.specs.Rows.{rows, HasRow};
ghost use Rattle.listing.specs.Crossings.{put};

use records::file::File;
use rows::copy_row;

// Whether the instruction whose record stands at place p is a safepoint.
pub fn is_safepoint(file: File<'_>, p: usize) -> bool
    requires { p < record_count file.bytes.now }
    ensures { result ≡ is_safepoint (encode (record_at file.entry.bytes.now p)).second }
{
    file.words_at(p).second % 2 == 1
}

// Row i becomes what is live, if a safepoint stands at place p.
pub fn list_live(file: File<'_>, p: usize, live: &[u64], lists: &mut [u64], i: usize)
    requires { (p < record_count file.bytes.now) × HasRow live.now 0 × HasRow lists.old i }
    ensures { rows lists.new ≡ put i (cond (is_safepoint (encode (record_at file.entry.bytes.now p)).second) (some (rows live.now 0)) none) (rows lists.old) }
{
    if is_safepoint(file, p) {
        copy_row(lists, i, live, 0);
    }
}
