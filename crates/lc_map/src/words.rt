// The words of the command line.
ghost use Rattle.std.specs.Prelude.{◌≡◌, option_map};
ghost use Rattle.lc_tool.specs.Words.{texts};
ghost use Rattle.lc_map.specs.Meant.{meant};
ghost use Rattle.lc_map.specs.Words.{kind_of, order_of};

use crate::kind::Kind;

/// A picture that is to be made of a record.
#[derive(Clone, Copy)]
pub struct Order<'a> {
    /// The name of the record's file.
    pub source: &'a str,
    /// The name of the picture's file.
    pub picture: &'a str,
    /// What the picture shows.
    pub kind: Kind,
}

fn kind_of(word: &str) -> Option<Kind>
    ensures { result ≡ kind_of word.now }
{
    match word {
        "bound" => Some(Kind::Bound),
        "size" => Some(Kind::Size),
        "missed" => Some(Kind::Missed),
        _ => None,
    }
}

/// The order that the words are.
pub fn read_words<'a>(words: &[&'a str]) -> Option<Order<'a>>
    ensures { option_map meant result ≡ order_of (texts words.now) }
{
    let [source, picture, kind] = words else {
        return None;
    };
    let kind = kind_of(kind)?;
    if *source == *picture {
        return None;
    }
    Some(Order {
        source,
        picture,
        kind,
    })
}
