// Refusal 6: each value is defined exactly once, by parameter or result. Definitions are counted in a lent table, by whoever
// goes over the records.
ghost use Rattle.std.specs.Prelude.{◌≡◌, ◌≤◌, ◌<◌, length, get_or, eqb};
ghost use Rattle.rules.specs.Lists.{all, up_from};
ghost use Rattle.checks.specs.Definitions.{defines, noted};

use rules::{Words, kinds};

// Whether four words are a parameter or a result.
fn is_definition(w: Words) -> bool
    ensures { result ≡ defines w }
{
    matches!(w.kind, kinds::PARAMETER | kinds::RESULT)
}

// One definition more of the value that four words define, if it has a place in the table.
#[tactic(auto, unfolding(crate::specs::Definitions::noted))]
pub fn note_definition(w: Words, counts: &mut [u32])
    requires { get_or counts.old w.second 0 < 4294967295 }
    ensures { counts.new ≡ noted counts.old w }
{
    let v = w.second as usize;
    if is_definition(w) && v < counts.len() {
        counts[v] += 1;
    }
}

// Whether each of the first values of a table of counts is 1.
pub fn each_once(counts: &[u32], values: usize) -> bool
    requires { values ≤ length counts.now }
    ensures { result ≡ all (λ v. eqb (get_or counts.now v 0) 1) (up_from 0 values) }
{
    counts[..values].iter().all(|count| *count == 1)
}
