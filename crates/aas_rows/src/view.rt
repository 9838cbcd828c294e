// A row that is lent.
ghost use Rattle.std.specs.Prelude.{◌≡◌, [], IfOk, option_map};
ghost use Rattle.std.specs.Str.{chars};
ghost use Rattle.aas_path_trees.specs.Children.{kids_of};
ghost use Rattle.aas_rows.specs.Rows.{line_at};
ghost use Rattle.aas_rows.specs.Views.{line_of};

use aas_model::{Common, Duplicate, Element, Many, NoMemory, Payload, Role, Text};
use std::alloc::Global;

/// An element without its children, at its level in preorder.
#[derive(Clone, Copy)]
pub struct RowView<'a> {
    /// The attributes that every element has. The idShort in it counts for nothing.
    pub common: &'a Common,
    pub id_short: Option<&'a str>,
    pub payload: &'a Payload,
    pub role: Role,
    pub level: u32,
}

impl<'a> RowView<'a> {
    /// The row of an element that stands at the level.
    pub fn of_element(element: &'a Element, level: u32) -> RowView<'a>
        ensures { line_of result ≡ line_at level element.now }
    {
        let id_short = match &element.common.id_short {
            Some(id_short) => Some(id_short.as_str()),
            None => None,
        };
        RowView {
            common: &element.common,
            id_short,
            payload: &element.payload,
            role: element.role,
            level,
        }
    }

    /// A copy of the row's element, without its children.
    pub fn copy(self, alloc: Global) -> Result<Element, NoMemory>
        ensures line { IfOk result (λ e. line_at self.entry.level e ≡ line_of self.entry) }
        ensures alone { IfOk result (λ e. kids_of e ≡ []) }
    {
        let mut common = self.common.copy()?;
        common.id_short = text_of(alloc, self.id_short)?;
        Ok(Element {
            common,
            payload: self.payload.copy()?,
            role: self.role,
            kids: Many::new(alloc),
        })
    }
}

fn text_of(alloc: Global, text: Option<&str>) -> Result<Option<Text>, NoMemory>
    ensures { IfOk result (λ copied. copied ≡ option_map (λ s. chars s.now) text.entry) }
{
    match text {
        Some(text) => Ok(Some(Text::from_str(alloc, text)?)),
        None => Ok(None),
    }
}
