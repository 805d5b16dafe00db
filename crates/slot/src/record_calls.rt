// The reader and the writer, on arrays.
ghost use Rattle.std.specs.Prelude.{◌≡◌};
ghost use Rattle.word.specs.Reader.{read_of};
ghost use Rattle.record_arrays.specs.RecordArray.{record_words};
ghost use Rattle.array_calls.specs.Calls.{answer, word_of};

use record_arrays::RecordArray;
use record_arrays::packing::record_words;
use record_arrays::standing::stands_for_record;
use record_arrays::unpacking::record_of;
use word::reader::read;
use writer::{NoWord, write};

#[unsafe(no_mangle)]
pub extern "C" fn slot_word_read(word: u32, fields: &mut RecordArray)
    ensures { fields.new ≡ record_words (read_of word) }
{
    *fields = record_words(read(word));
}

// A refusal leaves the word 0.
#[unsafe(no_mangle)]
pub extern "C" fn slot_word_write(fields: &RecordArray, word: &mut u32) -> u32
    ensures { answer result word.new ≡ word_of fields.now }
{
    *word = 0;
    if !stands_for_record(fields) {
        return NoWord.into();
    }
    match write(record_of(fields)) {
        Ok(w) => {
            *word = w;
            0
        }
        Err(refusal) => refusal.into(),
    }
}
