// Which net the program is to stand on.
use crate::script::number;

#[derive(Clone, Copy)]
pub(crate) enum Source<'a> {
    Ring { size: usize, label: usize },
    File(&'a str),
    Joined(&'a str, &'a str),
}

impl<'a> Source<'a> {
    // The net that the arguments name.
    pub(crate) fn named(arguments: &'a [String]) -> Option<Source<'a>> {
        match arguments {
            [path] => Some(Source::File(path.as_str())),
            [left, right] => Some(Source::Joined(left.as_str(), right.as_str())),
            [ring, size, label] if ring.as_str() == "ring" => Some(Source::Ring {
                size: number(size.as_str())?,
                label: number(label.as_str())?,
            }),
            _ => None,
        }
    }
}
