// The number of a key's ten words, and the ten words of a number.
ghost use Rattle.std.specs.Prelude.{◌≡◌};
ghost use Rattle.packing.specs.Digits.{number_of, digits};
ghost use Rattle.packing.specs.Key.{KeyWords};

// The number of a key's ten words.
pub fn number_of_words(words: &[u16]) -> u128
    requires { KeyWords words.now }
    ensures { result ≡ number_of 8192 words.now }
{
    let mut n: u128 = 0;
    for word in words {
        n = n * 8192 + *word as u128;
    }
    n
}

// The last ten words of a number.
pub fn ten_words(number: u128) -> [u16; 10]
    ensures { result ≡ digits 8192 10 number }
{
    let mut words = [0u16; 10];
    let mut n = number;
    for c in (0..10).rev() {
        words[c] = (n % 8192) as u16;
        n /= 8192;
    }
    words
}
