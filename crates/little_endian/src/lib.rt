// Words of 32 bits in bytes, little-endian: a word at a place, and the words of an image. Inner functions: their callers show what they require.
#![tactic(auto)]

ghost use Rattle.std.specs.Prelude.{◌≡◌, ◌+◌, ◌<◌, ◌≤◌, length, get_or, set, take, drop};
ghost use Rattle.std.proofs.lemmas.List.Edits.{sets};
ghost use Rattle.little_endian.specs.Word.{word_at, bytes_of_word};
ghost use Rattle.little_endian.specs.Image.{words_of, words_put, Holds};

// The word at a place.
#[tactic(auto, unfolding(crate::specs::Word::little_endian))]
pub fn word_at(bytes: &[u8], at: usize) -> u32
    requires { at + 4 ≤ length bytes.now }
    ensures { result ≡ word_at bytes.now at }
{
    u32::from_le_bytes([bytes[at], bytes[at + 1], bytes[at + 2], bytes[at + 3]])
}

// Puts a word at a place. By its four bytes and not by `copy_from_slice`: so both compilers, LLVM and Rattle's own, make one store.
pub fn put_word(bytes: &mut [u8], at: usize, w: u32)
    requires { at + 4 ≤ length bytes.old }
    ensures { bytes.new ≡ sets bytes.old at (bytes_of_word w) }
{
    [bytes[at], bytes[at + 1], bytes[at + 2], bytes[at + 3]] = w.to_le_bytes();
}

// Word i of an image.
#[tactic(auto, using(crate::proofs::Image::length_words, crate::proofs::Image::word_stands))]
pub fn image_word(image: &[u8], i: usize) -> u32
    requires { i < length (words_of image.now) }
    ensures { result ≡ get_or (words_of image.now) i 0 }
{
    word_at(image, 4 * i)
}

// Puts word i of an image.
#[tactic(auto, using(crate::proofs::Image::length_words))]
pub fn put_image_word(image: &mut [u8], i: usize, w: u32)
    requires { i < length (words_of image.old) }
    ensures { Holds image.old image.new (set (words_of image.old) i w) }
{
    put_word(image, 4 * i, w);
}

// Reads as many words of an image as the lent slice has.
#[tactic(auto, using(crate::proofs::Image::length_words))]
pub fn read_words(image: &[u8], from: usize, out: &mut [u32])
    requires { from + length out.old ≤ length (words_of image.now) }
    ensures { out.new ≡ take (length out.old) (drop from (words_of image.now)) }
{
    for (j, word) in out.iter_mut().enumerate() {
        *word = image_word(image, from + j);
    }
}

// Puts all words of the lent slice into an image.
#[tactic(auto, using(crate::proofs::Image::length_words, crate::proofs::Image::one_more))]
pub fn put_words(image: &mut [u8], from: usize, src: &[u32])
    requires { from + length src.now ≤ length (words_of image.old) }
    ensures { Holds image.old image.new (words_put (words_of image.old) from src.now) }
{
    for (j, &word) in src.iter().enumerate() {
        put_image_word(image, from + j, word);
    }
}
