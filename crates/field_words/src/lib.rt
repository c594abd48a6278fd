// The fields of a key page from words such as `scope=2`, as a user gives them. specs/Words.antt says how a word is read, specs/Fields.antt what it does.
#![tactic(auto)]

mod words;

ghost use Rattle.std.specs.Prelude.{◌≡◌, IfSome};
ghost use Rattle.std.specs.List.{position};
ghost use Rattle.octets.specs.Same.{same};
ghost use Rattle.field_words.specs.Words.{field_names};
ghost use Rattle.field_words.specs.Fields.{none_named, name_field};
ghost use Rattle.field_words.specs.Given.{value_given, fields_given, unnamed_in, FieldsSay};

use octets::strings::equal;
use wording::decimal;
use words::{name_in, value_in};

// How many fields of a page are a caller's to choose.
const FIELD_COUNT: usize = 12;

// Their names, in the order in which a page is read.
const FIELD_NAMES: [&str; FIELD_COUNT] = [
    "scope",
    "lock",
    "ceem",
    "rdmc",
    "sdk",
    "ckod",
    "ckorp",
    "ckorl",
    "encrypt",
    "decrypt",
    "algorithm",
    "format",
];

// What a word gave a field, and what it is where no word named it.
#[derive(Clone, Copy)]
pub struct Field {
    pub given: Option<u64>,
    pub unnamed: u64,
}

// A page's fields, in the order of their names.
#[derive(Clone, Copy)]
pub struct Fields {
    pub fields: [Field; FIELD_COUNT],
}

impl Field {
    pub fn value(self) -> u64
        ensures { result ≡ value_given self }
    {
        self.given.unwrap_or(self.unnamed)
    }
}

impl Fields {
    // Each field's value.
    pub fn values(self) -> [u64; FIELD_COUNT]
        ensures { result ≡ (fields_given self).values }
    {
        self.fields.map(Field::value)
    }
}

// The place of a name among others.
fn place_in(names: &[&str], name: &[u8]) -> Option<usize>
    ensures { result ≡ position (λ n. same name.now n.now) names.now }
{
    names.iter().position(|n| equal(name, n.as_bytes()))
}

// The number of the field that has the name.
fn field_number(name: &[u8]) -> Option<usize>
    ensures { result ≡ position (same name.now) field_names }
{
    place_in(&FIELD_NAMES, name)
}

// Before the first word: no field is named, and each is 0.
pub fn none_named() -> Fields
    ensures { fields_given result ≡ none_named }
{
    let field = Field {
        given: None,
        unnamed: 0,
    };
    Fields {
        fields: [field; FIELD_COUNT],
    }
}

// The fields after a word more; what no word named stays as it was. None where it is no NAME=VALUE with a name of a page's field and a number in decimal
// digits, or where its name came before.
#[tactic(auto, using(crate::proofs::Step::word_found))]
pub fn name_field(f: Fields, word: &[u8]) -> Option<Fields>
    ensures said { FieldsSay result (name_field (fields_given f) word.now) }
    ensures kept { IfSome result (λ g. unnamed_in g ≡ unnamed_in f) }
{
    let i = field_number(name_in(word))?;
    let n = decimal::read(value_in(word))?;
    let taken = f.fields[i].given.is_some();
    if taken {
        return None;
    }
    let mut named = f;
    named.fields[i].given = Some(n);
    Some(named)
}
