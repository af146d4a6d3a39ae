//! Attributes, and what they belong to besides spans: resources and scopes.

ghost use Rattle.std.specs.Prelude.{◌≡◌, [], length};
ghost use Rattle.span_types.specs.Promises.{AreDistinct};

use crate::{Memory, Seq, Text, TryCopy};
use std::alloc::Global;
use std::marker::Model;

/// An attribute's value: a text, a whole number or a truth.
#[derive(Debug, Drop)]
pub enum AttrValue {
    /// A text, OTLP's `stringValue`.
    Text(Text),
    /// A whole number of 64 signed bits, OTLP's `intValue`.
    Whole(i64),
    /// A truth, OTLP's `boolValue`.
    Truth(bool),
}

impl TryCopy for AttrValue {
    fn copy(&self) -> Result<AttrValue, Memory> {
        match self {
            AttrValue::Text(text) => Ok(AttrValue::Text(text.copy()?)),
            AttrValue::Whole(number) => Ok(AttrValue::Whole(*number)),
            AttrValue::Truth(truth) => Ok(AttrValue::Truth(*truth)),
        }
    }
}

/// A key and its value.
#[derive(Debug, Drop)]
pub struct Attr {
    /// The key.
    pub key: Text,
    /// The value.
    pub value: AttrValue,
}

impl TryCopy for Attr {
    fn copy(&self) -> Result<Attr, Memory> {
        let key = self.key.copy()?;
        let value = self.value.copy()?;
        Ok(Attr { key, value })
    }
}

/// A list of attributes, in the order in which they came. No two of them have one key.
#[derive(Debug, Drop)]
pub struct Attrs {
    inner: Seq<Attr>,
}

impl Model for Attrs {
    ghost use Rattle.std.specs.Prelude.{List};
    ghost use Rattle.span_types.specs.declared.attrs.Attr.{Attr};

    ghost Value = { List Attr };

    ghost view = { λ l. l.inner };

    ghost use Rattle.span_types.specs.Promises.{AreDistinct};

    ghost invariant = { λ l. AreDistinct l.inner };
}

impl Attrs {
    /// No attributes.
    pub fn none(alloc: Global) -> Attrs
        ensures { result ≡ [] }
    {
        Attrs {
            inner: Seq::none(alloc),
        }
    }

    /// The list of a vector's items, which are moved and not copied.
    pub fn of(inner: Vec<Attr>) -> Attrs
        requires { AreDistinct inner.items }
        ensures { result ≡ inner.items }
    {
        Attrs {
            inner: Seq::of(inner),
        }
    }

    /// What each list promises, for the proof of its caller: no two attributes have one key. It does nothing.
    pub fn keys_differ(&self)
        ensures { AreDistinct self.now }
    {
        let _ = &self.inner;
    }

    /// The vector again, without a copy.
    pub fn into_vec(self) -> Vec<Attr>
        ensures { result.items ≡ self }
    {
        self.inner.into_vec()
    }

    /// The items as a slice.
    pub fn as_slice(&self) -> &[Attr]
        ensures { result.now ≡ self.now }
    {
        self.inner.as_slice()
    }

    /// The number of items.
    pub fn len(&self) -> usize
        ensures { result ≡ length self.now }
    {
        self.inner.len()
    }
}

impl TryCopy for Attrs {
    fn copy(&self) -> Result<Attrs, Memory> {
        let inner = self.inner.copy()?;
        Ok(Attrs { inner })
    }
}

/// The source of spans, as OTLP's `Resource`: its attributes.
#[derive(Debug, Drop)]
pub struct Resource {
    /// What is said of the source.
    pub attrs: Attrs,
}

impl TryCopy for Resource {
    fn copy(&self) -> Result<Resource, Memory> {
        let attrs = self.attrs.copy()?;
        Ok(Resource { attrs })
    }
}

/// The instrumentation that made spans, as OTLP's `InstrumentationScope`.
#[derive(Debug, Drop)]
pub struct Scope {
    /// Its name, which may be empty.
    pub name: Text,
    /// Its version, which may be empty.
    pub version: Text,
    /// What is said of it.
    pub attrs: Attrs,
}

impl TryCopy for Scope {
    fn copy(&self) -> Result<Scope, Memory> {
        let name = self.name.copy()?;
        let version = self.version.copy()?;
        let attrs = self.attrs.copy()?;
        Ok(Scope {
            name,
            version,
            attrs,
        })
    }
}
