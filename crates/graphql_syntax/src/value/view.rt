//! Values of both types, as they are read: one borrowed view, so that what looks at values is written once.
ghost use Rattle.std.specs.Prelude.{◌≡◌, ◌↔◌, Some, [], length, option_map, slice_get, IfSome, IsTrue};
ghost use Rattle.std.specs.Iterator.{YieldsFirstBy, item_count, UpTo};
ghost use Rattle.std.specs.Iterator.SizeHint.{IsWithinCount};
ghost use Rattle.graphql_syntax.specs.calls.Named.{named};
ghost use Rattle.graphql_syntax.specs.calls.Views.{view_tree, list_items, object_fields, items_left, fields_left, seen_field};
ghost use Rattle.graphql_syntax.specs.trees.ValueViews.{const_tree, value_tree};

use super::{ConstValue, Name, Number, Value};
use std::iter::FusedIterator;

/// A borrowed value, whether variables may stand in it or not.
///
/// Each case is that of the value's own type over what it borrows. A contract sees the tree of the value.
#[derive(Clone, Copy, Debug)]
pub enum ValueView<'a> {
    /// A variable, by its name without the `$`.
    Variable(&'a Name),
    /// `null`.
    Null,
    /// A number, by its literal.
    Number(&'a Number),
    /// What a string or a block string stands for.
    String(&'a str),
    /// `true` or `false`.
    Boolean(bool),
    /// A value of an enum: a name other than `true`, `false` and `null`.
    Enum(&'a Name),
    /// The items of a list, in their order.
    List(ListView<'a>),
    /// The fields of an object, in their order.
    Object(ObjectView<'a>),
}

/// The items of a list of either type of values.
#[derive(Clone, Copy, Debug)]
pub struct ListView<'a> {
    items: Items<'a>,
}

#[derive(Clone, Copy, Debug)]
enum Items<'a> {
    Values(&'a [Value]),
    Constants(&'a [ConstValue]),
}

/// The fields of an object of either type of values.
#[derive(Clone, Copy, Debug)]
pub struct ObjectView<'a> {
    fields: Fields<'a>,
}

#[derive(Clone, Copy, Debug)]
enum Fields<'a> {
    Values(&'a [(Name, Value)]),
    Constants(&'a [(Name, ConstValue)]),
}

/// The items of a list that are left, in their order; then `None` for good.
#[derive(Clone, Copy, Debug)]
pub struct ListItems<'a> {
    left: ListView<'a>,
}

/// The fields of an object that are left, in their order; then `None` for good.
#[derive(Clone, Copy, Debug)]
pub struct ObjectFields<'a> {
    left: ObjectView<'a>,
}

impl Value {
    /// The value as it is read. Takes no memory.
    pub fn as_view(&self) -> ValueView<'_>
        ensures { view_tree result ≡ value_tree self.now }
    {
        match self {
            Value::Variable(name) => ValueView::Variable(name),
            Value::Null => ValueView::Null,
            Value::Number(number) => ValueView::Number(number),
            Value::String(text) => ValueView::String(text.as_str()),
            Value::Boolean(value) => ValueView::Boolean(*value),
            Value::Enum(name) => ValueView::Enum(name),
            Value::List(items) => {
                let items = Items::Values(items.as_slice());
                ValueView::List(ListView { items })
            }
            Value::Object(fields) => {
                let fields = Fields::Values(fields.as_slice());
                ValueView::Object(ObjectView { fields })
            }
        }
    }
}

impl ConstValue {
    /// The value as it is read. Takes no memory.
    pub fn as_view(&self) -> ValueView<'_>
        ensures { view_tree result ≡ const_tree self.now }
    {
        match self {
            ConstValue::Null => ValueView::Null,
            ConstValue::Number(number) => ValueView::Number(number),
            ConstValue::String(text) => ValueView::String(text.as_str()),
            ConstValue::Boolean(value) => ValueView::Boolean(*value),
            ConstValue::Enum(name) => ValueView::Enum(name),
            ConstValue::List(items) => {
                let items = Items::Constants(items.as_slice());
                ValueView::List(ListView { items })
            }
            ConstValue::Object(fields) => {
                let fields = Fields::Constants(fields.as_slice());
                ValueView::Object(ObjectView { fields })
            }
        }
    }
}

impl<'a> ListView<'a> {
    /// How many items there are.
    pub fn len(&self) -> usize
        ensures { result ≡ length (list_items self.now) }
    {
        match self.items {
            Items::Values(items) => items.len(),
            Items::Constants(items) => items.len(),
        }
    }

    /// Whether there is no item.
    pub fn is_empty(&self) -> bool
        ensures { IsTrue result ↔ (list_items self.now ≡ []) }
    {
        self.len() == 0
    }

    /// The item of this index, from 0; None from the length on.
    pub fn get(&self, index: usize) -> Option<ValueView<'a>>
        ensures { option_map view_tree result ≡ slice_get (list_items self.now) index }
    {
        match self.items {
            Items::Values(items) => Some(items.get(index)?.as_view()),
            Items::Constants(items) => Some(items.get(index)?.as_view()),
        }
    }

    /// The items in their order.
    pub fn iter(&self) -> ListItems<'a>
        ensures { items_left result ≡ list_items self.now }
    {
        ListItems { left: *self }
    }
}

impl<'a> ObjectView<'a> {
    /// How many fields there are.
    pub fn len(&self) -> usize
        ensures { result ≡ length (object_fields self.now) }
    {
        match self.fields {
            Fields::Values(fields) => fields.len(),
            Fields::Constants(fields) => fields.len(),
        }
    }

    /// Whether there is no field.
    pub fn is_empty(&self) -> bool
        ensures { IsTrue result ↔ (object_fields self.now ≡ []) }
    {
        self.len() == 0
    }

    /// The name and the value of the field of this index, from 0; None from the length on.
    pub fn get(&self, index: usize) -> Option<(&'a Name, ValueView<'a>)>
        ensures { option_map seen_field result ≡ slice_get (object_fields self.now) index }
    {
        match self.fields {
            Fields::Values(fields) => {
                let field = fields.get(index)?;
                Some((&field.0, field.1.as_view()))
            }
            Fields::Constants(fields) => {
                let field = fields.get(index)?;
                Some((&field.0, field.1.as_view()))
            }
        }
    }

    /// The value of the first field of this name; None where there is none. It walks the fields.
    pub fn field(&self, name: &str) -> Option<ValueView<'a>>
        ensures { option_map view_tree result ≡ named name.now (object_fields self.now) }
    {
        for (key, value) in self.iter() {
            if key.as_str() == name {
                return Some(value);
            }
        }
        None
    }

    /// The fields in their order, each with its name.
    pub fn iter(&self) -> ObjectFields<'a>
        ensures { fields_left result ≡ object_fields self.now }
    {
        ObjectFields { left: *self }
    }
}

impl<'a> Iterator for ListItems<'a> {
    type Item = ValueView<'a>;

    ghost next_gives = { YieldsFirstBy view_tree items_left };

    ghost remaining = { item_count items_left };

    fn next(&mut self) -> Option<ValueView<'a>> {
        match self.left.items {
            Items::Values(items) => {
                let (item, others) = items.split_first()?;
                self.left.items = Items::Values(others);
                Some(item.as_view())
            }
            Items::Constants(items) => {
                let (item, others) = items.split_first()?;
                self.left.items = Items::Constants(others);
                Some(item.as_view())
            }
        }
    }

    fn size_hint(&self) -> (usize, Option<usize>)
        ensures exact { result ≡ (length (items_left self.now), Some (length (items_left self.now))) }
        ensures lower { IsWithinCount result.0 (item_count items_left self.now) }
        ensures upper { IfSome result.1 (UpTo (item_count items_left self.now)) }
    {
        let len = self.len();
        (len, Some(len))
    }
}

impl FusedIterator for ListItems<'_> {}

impl ExactSizeIterator for ListItems<'_> {
    fn len(&self) -> usize {
        self.left.len()
    }
}

impl<'a> Iterator for ObjectFields<'a> {
    type Item = (&'a Name, ValueView<'a>);

    ghost next_gives = { YieldsFirstBy seen_field fields_left };

    ghost remaining = { item_count fields_left };

    fn next(&mut self) -> Option<(&'a Name, ValueView<'a>)> {
        match self.left.fields {
            Fields::Values(fields) => {
                let (field, others) = fields.split_first()?;
                self.left.fields = Fields::Values(others);
                Some((&field.0, field.1.as_view()))
            }
            Fields::Constants(fields) => {
                let (field, others) = fields.split_first()?;
                self.left.fields = Fields::Constants(others);
                Some((&field.0, field.1.as_view()))
            }
        }
    }

    fn size_hint(&self) -> (usize, Option<usize>)
        ensures exact { result ≡ (length (fields_left self.now), Some (length (fields_left self.now))) }
        ensures lower { IsWithinCount result.0 (item_count fields_left self.now) }
        ensures upper { IfSome result.1 (UpTo (item_count fields_left self.now)) }
    {
        let len = self.len();
        (len, Some(len))
    }
}

impl FusedIterator for ObjectFields<'_> {}

impl ExactSizeIterator for ObjectFields<'_> {
    fn len(&self) -> usize {
        self.left.len()
    }
}
