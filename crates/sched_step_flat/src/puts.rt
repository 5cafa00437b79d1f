ghost use Rattle.std.specs.Prelude.{◌≡◌, [], ◌∷◌, length, slice_index};

/// The first word, or 0 where there is none.
#[inline(always)]
pub(crate) fn first_word(words: &[u64]) -> u64
    ensures { result ≡ slice_index words.now 0 }
{
    if words.is_empty() { 0 } else { words[0] }
}

/// Makes the one word this one.
#[inline(always)]
pub(crate) fn put_one(words: &mut [u64], word: u64)
    requires { length words.old ≡ 1 }
    ensures { words.new ≡ word ∷ [] }
{
    let _old = words[0];
    words[0] = word;
}

/// Makes the two words these.
#[inline(always)]
pub(crate) fn put_two(words: &mut [u64], first: u64, second: u64)
    requires { length words.old ≡ 2 }
    ensures { words.new ≡ first ∷ second ∷ [] }
{
    words[0] = first;
    words[1] = second;
}

/// Makes the three words these.
#[inline(always)]
pub(crate) fn put_three(words: &mut [u64], first: u64, second: u64, third: u64)
    requires { length words.old ≡ 3 }
    ensures { words.new ≡ first ∷ second ∷ third ∷ [] }
{
    words[0] = first;
    words[1] = second;
    words[2] = third;
}
