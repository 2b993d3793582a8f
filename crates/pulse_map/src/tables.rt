// The constant words of the maps of a hundred and of ten elements, and a map's elements and X's, read from them.
ghost use Rattle.std.specs.Prelude.{◌≡◌, ◌+◌, ◌%◌, ◌^◌, ◌<◌, ◌≤◌, get_or, take, IfSome};
ghost use Rattle.std.specs.Int.Count.{ones};
ghost use Rattle.pulse_map.specs.Map.{map_of, bit_of, xs_in, N};
ghost use Rattle.pulse_map.specs.Words.{hundred_word, ten_word, words_of};

use super::map::Map;

// Row r, the map of r X's and 100 - r N's, in two words: element i in bit i mod 64 of word i div 64, 1 for X.
// Stays: the paper names 202 words of 64 bits.
const HUNDREDS: [u64; 202] = [
    0x0,
    0x0,
    0x1,
    0x0,
    0x4000000000001,
    0x0,
    0x200000001,
    0x4,
    0x4000002000001,
    0x800,
    0x1000010000100001,
    0x10000,
    0x1000100010001,
    0x10001,
    0x100040010004001,
    0x100040,
    0x1001001001001001,
    0x100100,
    0x80100200400801,
    0x1002004,
    0x1004010040100401,
    0x4010040,
    0x8040201008040201,
    0x4020100,
    0x101010101010101,
    0x1010101,
    0x8102040810204081,
    0x102040,
    0x8102040810204081,
    0x8102040,
    0x1041041041041041,
    0x104104,
    0x1041041041041041,
    0x4104104,
    0x1084210842108421,
    0x10842,
    0x1084210842108421,
    0x210842,
    0x1084210842108421,
    0x4210842,
    0x1084210842108421,
    0x84210842,
    0x1111111111111111,
    0x11111,
    0x1111111111111111,
    0x111111,
    0x1111111111111111,
    0x1111111,
    0x1111111111111111,
    0x11111111,
    0x1111111111111111,
    0x111111111,
    0x9249249249249249,
    0x924,
    0x9249249249249249,
    0x4924,
    0x9249249249249249,
    0x24924,
    0x9249249249249249,
    0x124924,
    0x9249249249249249,
    0x924924,
    0x9249249249249249,
    0x4924924,
    0x9249249249249249,
    0x24924924,
    0x9249249249249249,
    0x124924924,
    0x5555555555555555,
    0x5,
    0x5555555555555555,
    0x15,
    0x5555555555555555,
    0x55,
    0x5555555555555555,
    0x155,
    0x5555555555555555,
    0x555,
    0x5555555555555555,
    0x1555,
    0x5555555555555555,
    0x5555,
    0x5555555555555555,
    0x15555,
    0x5555555555555555,
    0x55555,
    0x5555555555555555,
    0x155555,
    0x5555555555555555,
    0x555555,
    0x5555555555555555,
    0x1555555,
    0x5555555555555555,
    0x5555555,
    0x5555555555555555,
    0x15555555,
    0x5555555555555555,
    0x55555555,
    0x5555555555555555,
    0x155555555,
    0x5555555555555555,
    0x555555555,
    0x5555555555555555,
    0xd55555555,
    0x5555555555555555,
    0xf55555555,
    0x5555555555555555,
    0xfd5555555,
    0x5555555555555555,
    0xff5555555,
    0x5555555555555555,
    0xffd555555,
    0x5555555555555555,
    0xfff555555,
    0x5555555555555555,
    0xfffd55555,
    0x5555555555555555,
    0xffff55555,
    0x5555555555555555,
    0xffffd5555,
    0xb6db6db6db6db6db,
    0x1b6db6d,
    0xb6db6db6db6db6db,
    0x5b6db6d,
    0xb6db6db6db6db6db,
    0xdb6db6d,
    0xb6db6db6db6db6db,
    0x2db6db6d,
    0xb6db6db6db6db6db,
    0x6db6db6d,
    0xb6db6db6db6db6db,
    0x16db6db6d,
    0xb6db6db6db6db6db,
    0x36db6db6d,
    0xb6db6db6db6db6db,
    0xb6db6db6d,
    0xb6db6db6db6db6db,
    0xf6db6db6d,
    0xb6db6db6db6db6db,
    0xfedb6db6d,
    0xb6db6db6db6db6db,
    0xffdb6db6d,
    0xb6db6db6db6db6db,
    0xfffb6db6d,
    0x7777777777777777,
    0x77777777,
    0x7777777777777777,
    0x177777777,
    0x7777777777777777,
    0x377777777,
    0x7777777777777777,
    0x777777777,
    0x7777777777777777,
    0xf77777777,
    0x7777777777777777,
    0xff7777777,
    0xf7bdef7bdef7bdef,
    0x1bdef7bde,
    0xf7bdef7bdef7bdef,
    0x3bdef7bde,
    0xf7bdef7bdef7bdef,
    0x7bdef7bde,
    0xf7bdef7bdef7bdef,
    0xfbdef7bde,
    0xf7df7df7df7df7df,
    0x37df7df7d,
    0xf7df7df7df7df7df,
    0x77df7df7d,
    0xf7df7df7df7df7df,
    0xf7df7df7d,
    0xbf7efdfbf7efdfbf,
    0x5fbf7efdf,
    0xbf7efdfbf7efdfbf,
    0xdfbf7efdf,
    0x7f7f7f7f7f7f7f7f,
    0x77f7f7f7f,
    0x7f7f7f7f7f7f7f7f,
    0xf7f7f7f7f,
    0xbfdfeff7fbfdfeff,
    0xbfdfeff7f,
    0xf7fdff7fdff7fdff,
    0x7fdff7fdf,
    0xffbff7feffdffbff,
    0xbff7feffd,
    0xfff7ffbffdffefff,
    0x7fbffdffe,
    0xff7ffdfff7ffdfff,
    0xdfff7ffdf,
    0xfffbfffdfffeffff,
    0x7ffeffff7,
    0xf7ffff7ffff7ffff,
    0x7ffff7fff,
    0xfffdfffffeffffff,
    0x7fffffbff,
    0xfffffffeffffffff,
    0xbfffffffd,
    0xfffdffffffffffff,
    0x7ffffffff,
    0xffffffffffffffff,
    0x7ffffffff,
    0xffffffffffffffff,
    0xfffffffff,
];

// Row r, the map of r X's and 10 - r N's, in one word.
// Stays: the paper names eleven words of 16 bits.
const TENS: [u16; 11] = [0, 1, 33, 73, 85, 341, 219, 731, 495, 511, 1023];

// Word h of row r of the maps of a hundred elements.
fn hundred_word(r: usize, h: usize) -> u64
    requires r_bound { r ≤ 100 }
    requires h_bound { h < 2 }
    ensures { result ≡ hundred_word r h }
{
    HUNDREDS[2 * r + h]
}

// The word of row r of the maps of ten elements.
fn ten_word(r: usize) -> u16
    requires { r ≤ 10 }
    ensures { result ≡ ten_word r }
{
    TENS[r]
}

// The number of ones in the k low bits of a word.
// Stays: the paper names count_ones of masked row words.
#[tactic(auto, using(crate::proofs::Words::and_low, crate::proofs::Words::above))]
fn low_ones(word: u64, k: u64) -> u64
    ensures { result ≡ ones (word % 2 ^ k) }
{
    if k < 64 {
        (word & ((1 << k) - 1)).count_ones().into()
    } else {
        word.count_ones().into()
    }
}

impl Map {
    // The words of the map, where there is a table of its length.
    fn words(self) -> Option<[u64; 2]>
        ensures { IfSome result (λ words. words ≡ words_of (map_of self.xs self.ns)) }
    {
        let row = self.xs as usize;
        match self.len() {
            100 => Some([hundred_word(row, 0), hundred_word(row, 1)]),
            10 => Some([ten_word(row).into(), 0]),
            _ => None,
        }
    }

    // Element i, 1 for X: bit i mod 64 of word i div 64 where there is a table, else what the X's grow by from i
    // elements to i + 1.
    pub(crate) fn bit(self, i: u64) -> u64
        requires { i < self.xs + self.ns }
        ensures { result ≡ bit_of (get_or (map_of self.xs self.ns) i N) }
    {
        match self.words() {
            Some(words) => (words[(i / 64) as usize] >> (i % 64)) & 1,
            None => self.interleaved(i + 1) - self.interleaved(i),
        }
    }

    // The X's among the first k elements: the ones in those bits where there is a table, else worked out.
    pub(crate) fn xs_before(self, k: u64) -> u64
        requires { k ≤ self.xs + self.ns }
        ensures { result ≡ xs_in (take k (map_of self.xs self.ns)) }
    {
        match self.words() {
            Some(words) => low_ones(words[0], k.min(64)) + low_ones(words[1], k.saturating_sub(64)),
            None => self.interleaved(k),
        }
    }
}
