// A line of a text, field by field.
ghost use Rattle.std.specs.Prelude.{◌≡◌, ℕ, List, [], ◌∷◌, map, length, decimal, MatchResult, ◌≢◌};
ghost use Rattle.std.specs.List.{AllByRecursion};
ghost use Rattle.text.specs.Fields.{Small, IsName, fields};
ghost use Rattle.text.specs.Tokens.{fields_in, left, IllFormed, Passed, Is, IsNot};

use crate::fields::{is_name, number_in, place_of};
use fault::Fault;

// A field of a line, as the part of the text that it is; a number has its value too.
#[derive(Clone, Copy, Debug)]
pub enum Token<'a> {
    Name(&'a [u8]),
    Number(&'a [u8], u32),
    Word(&'a [u8]),
}

// What a field has to be: a name, a number, or any word. An enum and no closure, since `Is` has to say of each kind which
// token comes.
#[derive(Clone, Copy, Debug)]
pub enum Want {
    Name,
    Number,
    Word,
}

// What is left of a line: the bytes after the last space that was passed, or none once the last field was taken.
#[derive(Clone, Copy, Debug)]
pub struct Line<'a> {
    pub rest: Option<&'a [u8]>,
    // Where the line begins in its text.
    pub start: usize,
    // Which line it is, counted from 1.
    pub number: usize,
}

// The bytes before the first space, and those after it, if there is one. One step a byte before the space.
#[tactic(auto, using(crate::proofs::Splits::fields_last, crate::proofs::Splits::cut_first))]
fn cut(bytes: &[u8]) -> (&[u8], Option<&[u8]>)
    ensures { fields bytes.now ≡ result.0.now ∷ fields_in result.1 }
{
    match place_of(bytes, b' ') {
        Some(n) => (&bytes[..n], Some(&bytes[n + 1..])),
        None => (bytes, None),
    }
}

impl<'a> Line<'a> {
    // The fault of a line that is not of its form. Constant time.
    pub fn ill_formed(&self) -> Fault
        ensures { IllFormed self.now result }
    {
        let line = self.number;
        Fault::IllFormedLine { line }
    }

    // What a call takes of a line is said by `Passed`, in one word: it ties two states of the line, as no field of it can.

    // The next field, whatever it holds. One step a byte of it.
    fn field(&mut self) -> Result<&'a [u8], Fault>
        ensures moves { Passed self.old self.new }
        ensures cases { MatchResult result
            (λ f. left self.old ≡ f.now ∷ left self.new)
            (λ f. IllFormed self.old f × (left self.old ≡ [])) }
    {
        let Some(bytes) = self.rest else {
            return Err(self.ill_formed());
        };
        let (field, more) = cut(bytes);
        self.rest = more;
        Ok(field)
    }

    // The next field as a token of the kind that is wanted. One step a byte of it.
    pub fn token(&mut self, want: Want) -> Result<Token<'a>, Fault>
        ensures moves { Passed self.old self.new }
        ensures cases { MatchResult result
            (λ t. (f : List ℕ) × (left self.old ≡ f ∷ left self.new) × Is want t f)
            (λ f. IllFormed self.old f × ((g : List ℕ) (more : List (List ℕ)) → left self.old ≡ g ∷ more → IsNot want g)) }
    {
        let field = self.field()?;
        let token = match want {
            Want::Name => is_name(field).then_some(Token::Name(field)),
            Want::Number => number_in(field).map(|n| Token::Number(field, n)),
            Want::Word => Some(Token::Word(field)),
        };
        match token {
            Some(token) => Ok(token),
            None => Err(self.ill_formed()),
        }
    }

    // `number`, `name` and `word` stay three functions: each takes another case of `Token` apart, and gives what it holds.

    // The next field, which has to be a number. One step a byte of it.
    fn number(&mut self) -> Result<u32, Fault>
        ensures moves { Passed self.old self.new }
        ensures cases { MatchResult result
            (λ n. Small n × (left self.old ≡ decimal n ∷ left self.new))
            (λ f. IllFormed self.old f × ((n : ℕ) (more : List (List ℕ)) → Small n → left self.old ≢ decimal n ∷ more)) }
    {
        let Token::Number(_, n) = self.token(Want::Number)? else {
            unreachable!();
        };
        Ok(n)
    }

    // The next field, which has to be a name. One step a byte of it.
    pub fn name(&mut self) -> Result<&'a [u8], Fault>
        ensures moves { Passed self.old self.new }
        ensures cases { MatchResult result
            (λ f. IsName f.now × (left self.old ≡ f.now ∷ left self.new))
            (λ f. IllFormed self.old f × ((g : List ℕ) (more : List (List ℕ)) → IsName g → left self.old ≢ g ∷ more)) }
    {
        let Token::Name(name) = self.token(Want::Name)? else {
            unreachable!();
        };
        Ok(name)
    }

    // The next field, whatever it holds. One step a byte of it.
    pub fn word(&mut self) -> Result<&'a [u8], Fault>
        ensures moves { Passed self.old self.new }
        ensures cases { MatchResult result
            (λ f. left self.old ≡ f.now ∷ left self.new)
            (λ f. IllFormed self.old f × (left self.old ≡ [])) }
    {
        let Token::Word(word) = self.token(Want::Word)? else {
            unreachable!();
        };
        Ok(word)
    }

    // The end of the line: no field may be left. Constant time.
    #[tactic(auto, using(crate::proofs::Splits::fields_some))]
    pub fn end(&self) -> Result<(), Fault>
        ensures { MatchResult result
            (λ _. left self.now ≡ [])
            (λ f. IllFormed self.now f × (left self.now ≢ [])) }
    {
        match self.rest {
            Some(_) => Err(self.ill_formed()),
            None => Ok(()),
        }
    }

    // All that is left of the line, which has to be N numbers. One step a byte of it.
    pub fn numbers<const N: usize>(mut self) -> Result<[u32; N], Fault>
        ensures { MatchResult result
            (λ ns. (length ns ≡ N) × AllByRecursion Small ns × (left self.entry ≡ map decimal ns))
            (λ f. IllFormed self.entry f × ((ns : List ℕ) → length ns ≡ N → AllByRecursion Small ns → left self.entry ≢ map decimal ns)) }
    {
        let mut numbers = [0; N];
        for n in &mut numbers {
            *n = self.number()?;
        }
        self.end()?;
        Ok(numbers)
    }
}
