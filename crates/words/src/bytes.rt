// Bytes in words: byte 4k + j of the data stands in bits 8j + 7 to 8j of word k.
ghost use Rattle.std.specs.Prelude.{◌≡◌, ◌+◌, ◌*◌, ◌/◌, ◌^◌, ◌≤◌, ◌<◌, min, length, get_or};
ghost use Rattle.words.specs.Bytes.{byte_of, word_of, byte_in};
ghost use Rattle.words.specs.Runs.{run, splice};

use crate::WordAddress;

// Byte i of the data, 0 past its end.
fn byte_at(bytes: &[u8], i: usize) -> u8
    ensures { result ≡ get_or bytes.now i 0 }
{
    if i < bytes.len() { bytes[i] } else { 0 }
}

// Word k of the data.
#[tactic(auto, using(crate::proofs::Moves::word_past), unfolding(crate::specs::Bytes::word_of))]
fn word_of(bytes: &[u8], k: usize) -> u32
    requires { k < 2 ^ 32 }
    ensures { result ≡ word_of bytes.now k }
{
    let i = 4 * k;
    if bytes.len() <= i {
        return 0;
    }
    u32::from_le_bytes([
        byte_at(bytes, i),
        byte_at(bytes, i + 1),
        byte_at(bytes, i + 2),
        byte_at(bytes, i + 3),
    ])
}

// The same where all its four bytes are there: no test of each.
// Beside word_of: tried with word_of alone, and a store of 64 bytes took 487 instructions in place of 85.
#[tactic(auto, unfolding(crate::specs::Bytes::word_of))]
fn whole_word(bytes: &[u8], k: usize) -> u32
    requires { 4 * k + 4 ≤ length bytes.now }
    ensures { result ≡ word_of bytes.now k }
{
    let i = 4 * k;
    u32::from_le_bytes([bytes[i], bytes[i + 1], bytes[i + 2], bytes[i + 3]])
}

// Fills words with the first of the data, which has all their bytes.
// Beside fill_rest: tried with one and a test for each word, and that store took 166 instructions in place of 85.
// Tried with chunks_exact(4): the proof didn't close, since nothing is known of what a zip of iter_mut wrote.
#[tactic(auto, using(crate::proofs::Runs::filled))]
fn fill_whole(words: &mut [u32], bytes: &[u8])
    requires { 4 * length words.old ≤ length bytes.now }
    ensures { words.new ≡ run (word_of bytes.now) 0 (length words.old) }
{
    for (k, word) in words.iter_mut().enumerate() {
        *word = whole_word(bytes, k);
    }
}

// Fills words with those of the data from word first of it on.
#[tactic(auto, using(crate::proofs::Runs::filled))]
fn fill_rest(words: &mut [u32], first: usize, bytes: &[u8])
    requires { first + length words.old < 2 ^ 32 }
    ensures { words.new ≡ run (λ i. word_of bytes.now (first + i)) 0 (length words.old) }
{
    for (k, word) in words.iter_mut().enumerate() {
        *word = word_of(bytes, first + k);
    }
}

// Writes the first n words of the data from a word on: a byte that is not there is 0, and those past them are dropped.
pub fn store(mem: &mut [u32], at: WordAddress, n: usize, bytes: &[u8])
    requires { (at.0 + n ≤ length mem.old) × (n < 2 ^ 32) }
    ensures { mem.new ≡ splice mem.old at.0 (run (word_of bytes.now) 0 n) }
{
    let start = at.0 as usize;
    let whole = n.min(bytes.len() / 4);
    fill_whole(&mut mem[start..start + whole], bytes);
    fill_rest(&mut mem[start + whole..start + n], whole, bytes)
}

// Byte j of a word. Not `to_le_bytes`: what may not change, its clause for each j.
pub fn byte_of(word: u32, j: usize) -> u8
    requires { j < 4 }
    ensures { result ≡ byte_of word j }
{
    ((word >> (8 * j)) % 256) as u8
}

// Writes the four bytes of a word to their place in out, from byte i on.
fn put_bytes(out: &mut [u8], i: usize, word: u32)
    requires { i + 4 ≤ length out.old }
    ensures { out.new ≡ splice out.old i (run (byte_of word) 0 4) }
{
    out[i..i + 4].copy_from_slice(&word.to_le_bytes());
}

// Writes the bytes of the words to the front of out.
// Beside fill_bytes: tried with fill_bytes alone, and a load of 64 bytes took 598 instructions in place of 87.
// Tried with chunks_exact_mut(4): the proof didn't close, since nothing is known of what was written through it.
fn put_words(words: &[u32], out: &mut [u8])
    requires { 4 * length words.now ≤ length out.old }
    ensures { out.new ≡ splice out.old 0 (run (byte_in words.now 0) 0 (4 * length words.now)) }
{
    for (k, word) in words.iter().enumerate() {
        put_bytes(out, 4 * k, *word);
    }
}

// Fills out with the first bytes of the words.
#[tactic(auto, using(crate::proofs::Runs::filled))]
fn fill_bytes(out: &mut [u8], words: &[u32])
    requires { (length out.old + 3) / 4 ≤ length words.now }
    ensures { out.new ≡ run (byte_in words.now 0) 0 (length out.old) }
{
    for (i, byte) in out.iter_mut().enumerate() {
        *byte = byte_of(words[i / 4], i % 4);
    }
}

// Writes the first n bytes of the words from a word on to the front of out.
pub fn load(mem: &[u32], at: WordAddress, n: usize, out: &mut [u8])
    requires { (n ≤ length out.old) × (at.0 + (n + 3) / 4 ≤ length mem.now) }
    ensures { out.new ≡ splice out.old 0 (run (byte_in mem.now at.0) 0 n) }
{
    let start = at.0 as usize;
    let whole = n / 4;
    put_words(&mem[start..start + whole], out);
    fill_bytes(&mut out[4 * whole..n], &mem[start + whole..])
}
