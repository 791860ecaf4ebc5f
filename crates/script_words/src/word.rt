//! The words of a line, and what each kind of word reads as.
ghost use Rattle.std.specs.Prelude.{◌≡◌, ◌≢◌, ℕ, List, [], ◌∷◌, ◌++◌, ◌<◌, ◌↔◌, IsTrue, IfSome, IfNone, IfOk, OnErr, MatchOption};
ghost use Rattle.script_words.specs.Words.{words_in};

/// The line can't be read.
#[derive(Clone, Copy, Debug, PartialEq, Eq)]
pub struct LineFault;

/// What is written as one word.
pub trait Word: Copy {
    /// The word that is written for a value.
    ghost text: { Self → List ℕ };

    /// The value lies in its range.
    ghost fits: { Self → Type 0 };

    /// The value of this word; None if and only if it is no value's.
    fn read(word: &[u8]) -> Option<Self>
        ensures found { IfSome result (λ v. fits v × (word.now ≡ text v)) }
        ensures none { IfNone result ((v : Self) → fits v → word.now ≢ text v) };
}

/// Whether the word is this one.
pub fn is_word(word: &[u8], wanted: &[u8]) -> bool
    ensures { IsTrue result ↔ (word.now ≡ wanted.now) }
{
    word == wanted
}

/// The bytes before the first space, and those after it; None if there is no space.
pub fn split_word(bytes: &[u8]) -> Option<(&[u8], &[u8])>
    ensures split { MatchOption result (words_in bytes.now ≡ bytes.now ∷ [])
        (λ p. words_in bytes.now ≡ p.0.now ∷ words_in p.1.now) }
{
    for i in 0..bytes.len() {
        if bytes[i] == b' ' {
            return Some((&bytes[..i], &bytes[i + 1..]));
        }
    }
    None
}

/// The bytes after this front.
pub fn after<'a>(word: &'a [u8], front: &[u8]) -> Option<&'a [u8]>
    ensures split { MatchOption result ((rest : List ℕ) → word.now ≢ front.now ++ rest) (λ r. word.now ≡ front.now ++ r.now) }
{
    word.strip_prefix(front)
}

/// Reads a line of one word.
pub fn one<A: Word>(bytes: &[u8]) -> Result<A, LineFault>
    ensures found { IfOk result (λ a. A.fits a × (words_in bytes.now ≡ A.text a ∷ [])) }
    ensures none { OnErr result ((a : A) → A.fits a → words_in bytes.now ≢ A.text a ∷ []) }
{
    match split_word(bytes) {
        Some(_) => Err(LineFault),
        None => A::read(bytes).ok_or(LineFault),
    }
}

/// Reads a line of two words.
pub fn two<A: Word, B: Word>(bytes: &[u8]) -> Result<(A, B), LineFault>
    ensures found { IfOk result (λ t. A.fits t.0 × B.fits t.1 × (words_in bytes.now ≡ A.text t.0 ∷ B.text t.1 ∷ [])) }
    ensures none { OnErr result ((a : A) (b : B) → A.fits a → B.fits b → words_in bytes.now ≢ A.text a ∷ B.text b ∷ []) }
{
    let (word, rest) = split_word(bytes).ok_or(LineFault)?;
    let first = A::read(word).ok_or(LineFault)?;
    let second = one::<B>(rest)?;
    Ok((first, second))
}

/// Reads a line of three words.
pub fn three<A: Word, B: Word, C: Word>(bytes: &[u8]) -> Result<(A, B, C), LineFault>
    ensures found { IfOk result (λ t. A.fits t.0 × B.fits t.1 × C.fits t.2
        × (words_in bytes.now ≡ A.text t.0 ∷ B.text t.1 ∷ C.text t.2 ∷ [])) }
    ensures none { OnErr result ((a : A) (b : B) (c : C) → A.fits a → B.fits b → C.fits c
        → words_in bytes.now ≢ A.text a ∷ B.text b ∷ C.text c ∷ []) }
{
    let (word, rest) = split_word(bytes).ok_or(LineFault)?;
    let first = A::read(word).ok_or(LineFault)?;
    let (second, third) = two::<B, C>(rest)?;
    Ok((first, second, third))
}

/// Reads a line of four words.
pub fn four<A: Word, B: Word, C: Word, D: Word>(bytes: &[u8]) -> Result<(A, B, C, D), LineFault>
    ensures found { IfOk result (λ t. A.fits t.0 × B.fits t.1 × C.fits t.2 × D.fits t.3
        × (words_in bytes.now ≡ A.text t.0 ∷ B.text t.1 ∷ C.text t.2 ∷ D.text t.3 ∷ [])) }
    ensures none { OnErr result ((a : A) (b : B) (c : C) (d : D) → A.fits a → B.fits b → C.fits c → D.fits d
        → words_in bytes.now ≢ A.text a ∷ B.text b ∷ C.text c ∷ D.text d ∷ []) }
{
    let (word, rest) = split_word(bytes).ok_or(LineFault)?;
    let first = A::read(word).ok_or(LineFault)?;
    let (second, third, fourth) = three::<B, C, D>(rest)?;
    Ok((first, second, third, fourth))
}

/// Reads a line of five words.
pub fn five<A: Word, B: Word, C: Word, D: Word, E: Word>(
    bytes: &[u8],
) -> Result<(A, B, C, D, E), LineFault>
    ensures found { IfOk result (λ t. A.fits t.0 × B.fits t.1 × C.fits t.2 × D.fits t.3 × E.fits t.4
        × (words_in bytes.now ≡ A.text t.0 ∷ B.text t.1 ∷ C.text t.2 ∷ D.text t.3 ∷ E.text t.4 ∷ [])) }
    ensures none { OnErr result ((a : A) (b : B) (c : C) (d : D) (e : E)
        → A.fits a → B.fits b → C.fits c → D.fits d → E.fits e
        → words_in bytes.now ≢ A.text a ∷ B.text b ∷ C.text c ∷ D.text d ∷ E.text e ∷ []) }
{
    let (word, rest) = split_word(bytes).ok_or(LineFault)?;
    let first = A::read(word).ok_or(LineFault)?;
    let (second, third, fourth, fifth) = four::<B, C, D, E>(rest)?;
    Ok((first, second, third, fourth, fifth))
}
