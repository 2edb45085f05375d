// What a step begins: whether its fields are in their ranges, and what a cell holds of it.
ghost use Rattle.std.specs.Prelude.{◌≡◌, ◌^◌, ◌<◌, length};
ghost use Rattle.steps.specs.Given.{content, begun, mapped, InText};
ghost use Rattle.steps.specs.Outline.{is_object, share_family};
ghost use Rattle.steps.specs.Law.{codepoints_ok, content_ok, holder_ok, share_ok, codepoints_of};
ghost use Rattle.steps.specs.Build.{sort_of, begun_object, begun_with};

use crate::limits::{CODEPOINT_END, FIELD_END};
use crate::parts::{Content, Family, Holder, Item, Share, Sort, Span, Value};

fn codepoints_ok(codepoints: &[u32]) -> bool
    ensures { result ≡ codepoints_ok codepoints.now }
{
    codepoints.iter().all(|point| *point < CODEPOINT_END)
}

impl<C> Content<C> {
    // The same with its codepoints where they are.
    pub fn as_ref(&self) -> Content<&C>
        ensures { mapped (λ c. c.now) result ≡ self.now }
    {
        match self {
            Content::Nothing => Content::Nothing,
            Content::Logic(b) => Content::Logic(*b),
            Content::Char(point) => Content::Char(*point),
            Content::Integer(n) => Content::Integer(*n),
            Content::Float(bits) => Content::Float(*bits),
            Content::Text {
                kind,
                head,
                codepoints,
            } => Content::Text {
                kind: *kind,
                head: *head,
                codepoints,
            },
        }
    }

    // The same with its codepoints given in another way.
    pub fn map<D, F: FnOnce(C) -> D>(self, change: F) -> Content<D>
        requires { InText (F.pre change) self }
        ensures { (f : C → D) → ((x : C) (y : D) → F.post change x y → y ≡ f x) → result ≡ mapped f self }
    {
        match self {
            Content::Nothing => Content::Nothing,
            Content::Logic(b) => Content::Logic(b),
            Content::Char(point) => Content::Char(point),
            Content::Integer(n) => Content::Integer(n),
            Content::Float(bits) => Content::Float(bits),
            Content::Text {
                kind,
                head,
                codepoints,
            } => Content::Text {
                kind,
                head,
                codepoints: change(codepoints),
            },
        }
    }
}

impl<'v> Value<'v> {
    pub fn is_ok(self) -> bool
        ensures { result ≡ content_ok (content self.entry) }
    {
        match self {
            Value::Char(point) => point < CODEPOINT_END,
            Value::Text {
                head,
                codepoints,
                ..
            } => head < FIELD_END && codepoints_ok(codepoints),
            _ => true,
        }
    }
}

impl Holder {
    pub fn is_ok(self) -> bool
        ensures { result ≡ holder_ok self }
    {
        match self {
            Holder::List { head, .. } => head < FIELD_END,
            Holder::Object { class, arity, .. } => class < FIELD_END && arity < FIELD_END,
        }
    }

    pub fn is_object(self) -> bool
        ensures { result ≡ is_object self }
    {
        matches!(self, Holder::Object { .. })
    }
}

impl Share {
    pub fn is_ok(self) -> bool
        ensures { result ≡ share_ok self }
    {
        match self {
            Share::List { head, .. } | Share::Text { head, .. } => head < FIELD_END,
            Share::Object { .. } => true,
        }
    }

    pub fn family(self) -> Family
        ensures { result ≡ share_family self }
    {
        match self {
            Share::List { .. } => Family::Lists,
            Share::Text { .. } => Family::Texts,
            Share::Object { .. } => Family::Objects,
        }
    }
}

impl<'v> Item<'v> {
    // Whether it opens an object.
    pub fn opens_object(self) -> bool
        ensures { result ≡ begun_object (begun self.entry) }
    {
        matches!(self, Item::Open(holder) if holder.is_object())
    }

    pub fn codepoints(self) -> &'v [u32]
        ensures { result.now ≡ codepoints_of (begun self.entry) }
    {
        match self {
            Item::Put(Value::Text { codepoints, .. }) => codepoints,
            _ => &[],
        }
    }

    // The sort of its cell, where so many codepoints are in use.
    pub fn sort(self, from: u32) -> Sort
        requires { length (codepoints_of (begun self)) < 2 ^ 32 }
        ensures { result ≡ sort_of from (begun self.entry) }
    {
        match self {
            Item::Put(value) => Sort::Put(value.map(|codepoints| Span {
                start: from,
                len: codepoints.len() as u32,
            })),
            Item::Open(holder) => Sort::Open { holder, count: 0 },
            Item::Share(share, target) => Sort::Share { share, target },
        }
    }
}

impl Sort {
    // The value of a cell of this sort that has these codepoints.
    pub fn item<'v>(self, codepoints: &'v [u32]) -> Item<'v>
        ensures { begun result ≡ begun_with self codepoints.now }
    {
        match self {
            Sort::Put(value) => Item::Put(value.map(|_| codepoints)),
            Sort::Open { holder, .. } => Item::Open(holder),
            Sort::Share { share, target } => Item::Share(share, target),
        }
    }
}
