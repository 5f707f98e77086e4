// Words in slots of one width, and bytes written as far as there is room.

#![tactic(auto)]

ghost use Rattle.std.specs.Prelude.{◌≡◌, ◌+◌, ◌*◌, ◌^◌, ◌≤◌, ◌<◌, length, get_or};
ghost use Rattle.names.specs.Token.{same, first_below};
ghost use Rattle.buffers.specs.Slots.{Slots, slot_at, put_slot_def, found_option};
ghost use Rattle.buffers.specs.Filled.{filled_from};

// Whether two words are the same. The callers compare with literals: `word == b"else".as_slice()` in its place is no plainer.
pub fn same(a: &[u8], b: &[u8]) -> bool
    ensures { result ≡ same a.now b.now }
{
    a == b
}

// The word in a slot. Inner: the table has the slot, and the word fits into it.
pub fn slot(table: &[u8], width: usize, i: usize) -> &[u8]
    requires { (width * i + width ≤ length table.now) × (get_or table.now (width * i) 0 < width) }
    ensures { result.now ≡ slot_at width table.now i }
{
    let head = width * i;
    let from = head + 1;
    let to = from + usize::from(table[head]);
    &table[from..to]
}

// The first of `count` slots from number `base` on that holds the word, counted from `base`. Inner: the table has the slots.
pub fn find(table: &[u8], width: usize, base: usize, count: usize, word: &[u8]) -> Option<usize>
    requires { Slots width (base + count) table.now }
    ensures { result ≡ found_option (first_below (λ x. same word.now (slot_at width table.now (base + x))) count) }
{
    for x in 0..count {
        if word == slot(table, width, base + x) {
            return Some(x);
        }
    }
    None
}

// So many bytes are written one by one, since most tokens are short: copying them as a slice costs a call.
const FEW: usize = 8;

// Writes bytes from a place on, as far as there is room, and returns where they end. Inner: that place fits into a usize.
pub fn put(output: &mut [u8], at: usize, bytes: &[u8]) -> usize
    requires { at + length bytes.now < 2 ^ 64 }
    ensures value { result ≡ at + length bytes.now }
    ensures output_after { output.new ≡ filled_from at bytes.now output.old }
{
    let end = at + bytes.len();
    if bytes.len() > FEW && end <= output.len() {
        output[at..end].copy_from_slice(bytes);
        return end;
    }
    for (i, &byte) in bytes.iter().enumerate() {
        if at + i >= output.len() {
            break;
        }
        output[at + i] = byte;
    }
    end
}

// Puts a word into a slot. Inner: the table has the slot, and the word fits into it and has at most 255 bytes.
pub fn put_slot(table: &mut [u8], width: usize, i: usize, word: &[u8])
    requires { (width * i + width ≤ length table.old) × (length word.now < width) × (length word.now < 256) }
    ensures { table.new ≡ put_slot_def width table.old i word.now }
{
    let head = width * i;
    table[head] = word.len() as u8;
    put(table, head + 1, word);
}
