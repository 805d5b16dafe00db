// A record of a line: its digits are checked, and its data put into memory, in one walk. What an unsound record left there is
// cleared with all of it.
ghost use Rattle.std.specs.Prelude.{ℕ, ◌≡◌, ◌+◌, ◌*◌, ◌/◌, ◌%◌, ◌≤◌, ◌&&◌, true, eqb, List, ◌∷◌, length, take, sum};
ghost use Rattle.intel_hex.specs.Record.{Record, all_digits, bytes_of};
ghost use Rattle.intel_hex.specs.Reader.{place, read_on};
ghost use Rattle.intel_hex.specs.Walk.{counted_record, headed_record, goes};

use crate::digits::decode;

// What came of a line.
#[derive(Clone, Copy)]
pub enum Came {
    Unsound,
    // Data beyond the memory.
    Outside,
    End,
    // To the next line, with the upper half of its addresses.
    Onward { upper: u32 },
}

// A record's bytes before its data.
#[derive(Clone, Copy)]
pub struct Head {
    pub count: u8,
    pub high: u8,
    pub low: u8,
    pub kind: u8,
}

impl Head {
    fn sum(self) -> u8
        ensures { result ≡ (self.count + self.high + self.low + self.kind) % 256 }
    {
        self.count
            .wrapping_add(self.high)
            .wrapping_add(self.low)
            .wrapping_add(self.kind)
    }

    fn address(self) -> u16
        ensures { result ≡ self.high * 256 + self.low }
    {
        u16::from_be_bytes([self.high, self.low])
    }

    // So many bytes of data, and address 0000.
    fn fixed(self, count: u8) -> bool
        ensures { result ≡ (eqb self.count count && eqb (self.high * 256 + self.low) 0) }
    {
        self.count == count && self.address() == 0
    }
}

// Whether data and sum are digits that bring the sum of the head to 0; puts the data into memory.
fn sound_in(h: Head, digits: &[u8], into: &mut [u8]) -> bool
    requires { length digits.now ≡ 2 * (length into.old + 1) }
    ensures answer { result ≡ (all_digits digits.now && eqb ((h.count + h.high + h.low + h.kind + sum (bytes_of digits.now)) % 256) 0) }
    ensures held { result ≡ true → into.new ≡ take (length into.old) (bytes_of digits.now) }
{
    let (data, last) = digits.split_at(2 * into.len());
    let Some(data_sum) = decode(data, into) else {
        return false;
    };
    let Some(last_sum) = decode(last, &mut [0]) else {
        return false;
    };
    h.sum().wrapping_add(data_sum).wrapping_add(last_sum) == 0
}

// The same of data that no memory is lent for.
fn sound(h: Head, digits: &[u8]) -> bool
    requires { length digits.now ≡ 2 * (h.count + 1) }
    ensures { result ≡ (all_digits digits.now && eqb ((h.count + h.high + h.low + h.kind + sum (bytes_of digits.now)) % 256) 0) }
{
    let mut nowhere = [0u8; u8::MAX as usize];
    sound_in(h, digits, &mut nowhere[..h.count as usize])
}

fn data(h: Head, digits: &[u8], memory: &mut [u8], upper: u32) -> Came
    requires { (h.kind ≡ 0) × (length digits.now ≡ 2 * (h.count + 1)) }
    ensures { (k : ℕ) (later : List Record) → read_on k upper memory.old (headed_record h digits.now ∷ later) ≡ goes k memory.new later result }
{
    let at = upper as usize * 65536 + h.address() as usize;
    let end = at + h.count as usize;
    if end <= memory.len() {
        if sound_in(h, digits, &mut memory[at..end]) {
            return Came::Onward { upper };
        }
        return Came::Unsound;
    }
    if !sound(h, digits) {
        return Came::Unsound;
    }
    if h.count == 0 {
        return Came::Onward { upper };
    }
    Came::Outside
}

fn end(h: Head, digits: &[u8]) -> Came
    requires { (h.kind ≡ 1) × (length digits.now ≡ 2 * (h.count + 1)) }
    ensures { (mem : List ℕ) (upper k : ℕ) (later : List Record) → read_on k upper mem (headed_record h digits.now ∷ later) ≡ goes k mem later result }
{
    if h.fixed(0) && sound(h, digits) {
        Came::End
    } else {
        Came::Unsound
    }
}

fn upper_half(h: Head, digits: &[u8]) -> Came
    requires { (h.kind ≡ 4) × (length digits.now ≡ 2 * (h.count + 1)) }
    ensures { (mem : List ℕ) (upper k : ℕ) (later : List Record) → read_on k upper mem (headed_record h digits.now ∷ later) ≡ goes k mem later result }
{
    if !h.fixed(2) {
        return Came::Unsound;
    }
    let mut half = [0u8; 2];
    if !sound_in(h, digits, &mut half) {
        return Came::Unsound;
    }
    Came::Onward {
        upper: u32::from(u16::from_be_bytes(half)),
    }
}

fn typed(h: Head, digits: &[u8], memory: &mut [u8], upper: u32) -> Came
    requires { length digits.now ≡ 2 * (h.count + 1) }
    ensures { (k : ℕ) (later : List Record) → read_on k upper memory.old (headed_record h digits.now ∷ later) ≡ goes k memory.new later result }
{
    match h.kind {
        0 => data(h, digits, memory, upper),
        1 => end(h, digits),
        4 => upper_half(h, digits),
        _ => Came::Unsound,
    }
}

pub fn record(count: u8, digits: &[u8], memory: &mut [u8], upper: u32) -> Came
    requires { length digits.now ≡ 2 * (count + 4) }
    ensures { (k : ℕ) (later : List Record) → read_on k upper memory.old (counted_record count digits.now ∷ later) ≡ goes k memory.new later result }
{
    let mut head = [0u8; 3];
    let Some(_) = decode(&digits[..6], &mut head) else {
        return Came::Unsound;
    };
    let [high, low, kind] = head;
    let h = Head {
        count,
        high,
        low,
        kind,
    };
    typed(h, &digits[6..], memory, upper)
}
