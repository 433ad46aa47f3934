//! The texts of users.

ghost use Rattle.std.specs.Prelude.{◌≡◌};
ghost use Rattle.std.specs.Option.{option_map};
ghost use Rattle.pbf_dense.specs.Info.{user_text};

use pbf_strings::Table;

/// The text of an index; the empty text if it is negative or the table has none.
pub(crate) fn user_text_of<'a>(table: &'a Table<'a>, index: i64) -> &'a [u8]
    ensures { result.now ≡ user_text table.now index }
{
    if index < 0 {
        return &[];
    }
    table.text(index as usize)
}

/// The text of an index, if there is one.
pub(crate) fn text_if_some<'a>(table: &'a Table<'a>, index: Option<i64>) -> Option<&'a [u8]>
    ensures { option_map (λ text. text.now) result ≡ option_map (user_text table.now) index }
{
    let index = index?;
    Some(user_text_of(table, index))
}
