//! When values, attributes, resources and scopes are equal: exactly where contracts see the same. So each can be a
//! map's key.

ghost use Rattle.std.specs.Cmp.{partial_equiv_from_equiv};
ghost use Rattle.std.specs.Hash as fed;
ghost use Rattle.std.specs.Hash.{same_Alike};
ghost use Rattle.std.specs.Str.{bytes_eq};
ghost use Rattle.std.proofs.lemmas.Slice.Eq.{bytes_eq-Decides};
ghost use Rattle.span_types.specs.Equal.{same_attr, same_attrs, same_resource, same_scope, same_value};
ghost use Rattle.span_types.specs.Hashed.{attr_input, attrs_input, resource_input, scope_input, value_input};
ghost use Rattle.span_types.specs.EqualLaws.{attr_decides, attrs_decide, decided_equiv, resource_decides, scope_decides, value_decides};

use crate::{Attr, AttrValue, Attrs, Resource, Scope, Text};
use std::hash::{Hash, Hasher};

impl PartialEq for Text {
    ghost eq = { bytes_eq };

    ghost laws = { partial_equiv_from_equiv (decided_equiv bytes_eq bytes_eq-Decides) };

    fn eq(&self, other: &Text) -> bool {
        self.as_str() == other.as_str()
    }
}

impl Eq for Text {
    ghost laws = { decided_equiv bytes_eq bytes_eq-Decides };
}

impl Hash for Text {
    ghost hash_input = { fed.str };

    ghost respects_eq = { (same_Alike fed.str bytes_eq-Decides).fed };

    fn hash<H: Hasher>(&self, state: &mut H) {
        self.as_str().hash(state);
    }
}

impl PartialEq for AttrValue {
    ghost eq = { same_value };

    ghost laws = { partial_equiv_from_equiv (decided_equiv same_value value_decides) };

    fn eq(&self, other: &AttrValue) -> bool {
        match (self, other) {
            (AttrValue::Text(a), AttrValue::Text(b)) => *a == *b,
            (AttrValue::Whole(a), AttrValue::Whole(b)) => *a == *b,
            (AttrValue::Truth(a), AttrValue::Truth(b)) => *a == *b,
            _ => false,
        }
    }
}

impl Eq for AttrValue {
    ghost laws = { decided_equiv same_value value_decides };
}

impl Hash for AttrValue {
    ghost hash_input = { value_input };

    ghost respects_eq = { (same_Alike value_input value_decides).fed };

    fn hash<H: Hasher>(&self, state: &mut H) {
        match self {
            AttrValue::Text(text) => text.hash(state),
            AttrValue::Whole(number) => number.hash(state),
            AttrValue::Truth(truth) => truth.hash(state),
        }
    }
}

impl PartialEq for Attr {
    ghost eq = { same_attr };

    ghost laws = { partial_equiv_from_equiv (decided_equiv same_attr attr_decides) };

    fn eq(&self, other: &Attr) -> bool {
        self.key == other.key && self.value == other.value
    }
}

impl Eq for Attr {
    ghost laws = { decided_equiv same_attr attr_decides };
}

impl Hash for Attr {
    ghost hash_input = { attr_input };

    ghost respects_eq = { (same_Alike attr_input attr_decides).fed };

    fn hash<H: Hasher>(&self, state: &mut H) {
        self.key.hash(state);
        self.value.hash(state);
    }
}

impl PartialEq for Attrs {
    ghost eq = { same_attrs };

    ghost laws = { partial_equiv_from_equiv (decided_equiv same_attrs attrs_decide) };

    fn eq(&self, other: &Attrs) -> bool {
        self.as_slice() == other.as_slice()
    }
}

impl Eq for Attrs {
    ghost laws = { decided_equiv same_attrs attrs_decide };
}

impl Hash for Attrs {
    ghost hash_input = { attrs_input };

    ghost respects_eq = { (same_Alike attrs_input attrs_decide).fed };

    fn hash<H: Hasher>(&self, state: &mut H) {
        self.as_slice().hash(state);
    }
}

impl PartialEq for Resource {
    ghost eq = { same_resource };

    ghost laws = { partial_equiv_from_equiv (decided_equiv same_resource resource_decides) };

    #[tactic(auto, unfolding(crate::specs::Equal::same_resource))]
    fn eq(&self, other: &Resource) -> bool {
        self.attrs == other.attrs
    }
}

impl Eq for Resource {
    ghost laws = { decided_equiv same_resource resource_decides };
}

impl Hash for Resource {
    ghost hash_input = { resource_input };

    ghost respects_eq = { (same_Alike resource_input resource_decides).fed };

    fn hash<H: Hasher>(&self, state: &mut H) {
        self.attrs.hash(state);
    }
}

impl PartialEq for Scope {
    ghost eq = { same_scope };

    ghost laws = { partial_equiv_from_equiv (decided_equiv same_scope scope_decides) };

    #[tactic(auto, unfolding(crate::specs::Equal::same_scope))]
    fn eq(&self, other: &Scope) -> bool {
        self.name == other.name && self.version == other.version && self.attrs == other.attrs
    }
}

impl Eq for Scope {
    ghost laws = { decided_equiv same_scope scope_decides };
}

impl Hash for Scope {
    ghost hash_input = { scope_input };

    ghost respects_eq = { (same_Alike scope_input scope_decides).fed };

    fn hash<H: Hasher>(&self, state: &mut H) {
        self.name.hash(state);
        self.version.hash(state);
        self.attrs.hash(state);
    }
}
