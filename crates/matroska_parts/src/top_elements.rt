//! The elements of a file's top and of its Segment (RFC 9559, section 5.1), by name.
ghost use Rattle.std.specs.Prelude.{◌≡◌};
ghost use Rattle.matroska_parts.specs.TopElements.{top_element_of, name_of, element_number};

/// An element that may stand at the top of a file or in its Segment.
#[derive(Clone, Copy, Debug, PartialEq, Eq)]
pub enum TopElement {
    Ebml,
    Segment,
    SeekHead,
    Info,
    Tracks,
    Cues,
    Cluster,
    Attachments,
    Chapters,
    Tags,
    Void,
}

impl TopElement {
    /// Its name, as the standards have it.
    pub fn name(&self) -> &'static str
        ensures { result.now ≡ name_of self.now }
    {
        match self {
            TopElement::Ebml => "EBML",
            TopElement::Segment => "Segment",
            TopElement::SeekHead => "SeekHead",
            TopElement::Info => "Info",
            TopElement::Tracks => "Tracks",
            TopElement::Cues => "Cues",
            TopElement::Cluster => "Cluster",
            TopElement::Attachments => "Attachments",
            TopElement::Chapters => "Chapters",
            TopElement::Tags => "Tags",
            TopElement::Void => "Void",
        }
    }

    /// Which of the eleven it is, counted from 0.
    pub fn number(&self) -> usize
        ensures { result ≡ element_number self.now }
    {
        match self {
            TopElement::Ebml => 0,
            TopElement::Segment => 1,
            TopElement::SeekHead => 2,
            TopElement::Info => 3,
            TopElement::Tracks => 4,
            TopElement::Cues => 5,
            TopElement::Cluster => 6,
            TopElement::Attachments => 7,
            TopElement::Chapters => 8,
            TopElement::Tags => 9,
            TopElement::Void => 10,
        }
    }
}

/// The element with this ID. `None` for any other ID.
pub fn top_element(id: u32) -> Option<TopElement>
    ensures { result ≡ top_element_of id }
{
    match id {
        0x1A45DFA3 => Some(TopElement::Ebml),
        0x18538067 => Some(TopElement::Segment),
        0x114D9B74 => Some(TopElement::SeekHead),
        0x1549A966 => Some(TopElement::Info),
        0x1654AE6B => Some(TopElement::Tracks),
        0x1C53BB6B => Some(TopElement::Cues),
        0x1F43B675 => Some(TopElement::Cluster),
        0x1941A469 => Some(TopElement::Attachments),
        0x1043A770 => Some(TopElement::Chapters),
        0x1254C367 => Some(TopElement::Tags),
        0xEC => Some(TopElement::Void),
        _ => None,
    }
}
