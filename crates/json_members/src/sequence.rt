//! A list of values.

ghost use Rattle.std.specs.Prelude.{◌≡◌, []};

use chan_values::Text;
use std::alloc::Global;
use std::marker::Model;

/// A list of values, as contracts see it. It is made from a vector and gives it back.
#[derive(Debug, Drop)]
pub struct Sequence<T> {
    values: Vec<T>,
}

/// A list of texts.
pub type Texts = Sequence<Text>;

impl<T> Model for Sequence<T> {
    ghost use Rattle.std.specs.Prelude.{List};

    ghost Value = { List T };

    ghost view = { λ s. s.values.items };
}

impl<T> Sequence<T> {
    /// The values of a vector.
    pub fn new(values: Vec<T>) -> Sequence<T>
        ensures { result ≡ values.items }
    {
        Sequence { values }
    }

    /// No values.
    pub fn none(alloc: Global) -> Sequence<T>
        ensures { result ≡ [] }
    {
        Sequence {
            values: Vec::new(alloc),
        }
    }

    /// The vector of the values.
    pub fn into_vec(self) -> Vec<T>
        ensures { result.items ≡ self }
    {
        self.values
    }

    /// The values in place.
    pub fn as_slice(&self) -> &[T]
        ensures { result.now ≡ self.now }
    {
        self.values.as_slice()
    }
}
