// The arrays that stand for a record.
ghost use Rattle.std.specs.Prelude.{◌≡◌};
ghost use Rattle.record_arrays.specs.RecordArray.{stands_for_record};

use crate::RecordArray;
use crate::packing::record_words;
use crate::unpacking::record_of;

#[tactic(auto, using(crate::proofs::RecordLaws::compared))]
pub fn stands_for_record(words: &RecordArray) -> bool
    ensures { result ≡ stands_for_record words.now }
{
    *words == record_words(record_of(words))
}
