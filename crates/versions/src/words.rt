// What a call found, written into a lent list from its start, a word each.
ghost use Rattle.std.specs.Prelude.{◌≡◌};
ghost use Rattle.versions.specs.Words.{counted, all_put, some_put, fitting_put};

use graph::records::unwritten;
use lists::Kept;
use model::{Refusal, Written};

// All words, and how many they are; or none, where they do not fit.
fn try_put(found: Result<Kept, Refusal>, list: &mut [u32]) -> Result<usize, Refusal>
    ensures { (counted result, list.new) ≡ all_put found list.old }
{
    let words = found?;
    let n = words.len();
    if list.len() < n {
        return Err(Refusal::ListTooShort);
    }
    list[..n].copy_from_slice(words.as_slice());
    Ok(n)
}

// All words, or none where they do not fit.
#[tactic(auto, unfolding(crate::specs::Words::counted))]
pub(crate) fn put_all(found: Result<Kept, Refusal>, list: &mut [u32]) -> Written
    ensures { (result, list.new) ≡ all_put found list.old }
{
    match try_put(found, list) {
        Ok(count) => Written {
            count,
            outcome: Ok(()),
        },
        Err(r) => unwritten(r),
    }
}

// As many words as fit.
#[tactic(auto, using(crate::proofs::Writing::fitting))]
fn put_some(words: &[u32], list: &mut [u32]) -> Written
    ensures { (result, list.new) ≡ some_put words.now list.old }
{
    let n = words.len().min(list.len());
    list[..n].copy_from_slice(&words[..n]);
    if n < words.len() {
        return Written {
            count: n,
            outcome: Err(Refusal::ListTooShort),
        };
    }
    Written {
        count: n,
        outcome: Ok(()),
    }
}

// As many words as fit, and refused where they are not all.
#[tactic(auto, unfolding(crate::specs::Words::fitting_put))]
pub(crate) fn put_fitting(found: Result<Kept, Refusal>, list: &mut [u32]) -> Written
    ensures { (result, list.new) ≡ fitting_put found list.old }
{
    match found {
        Ok(words) => put_some(words.as_slice(), list),
        Err(r) => unwritten(r),
    }
}
