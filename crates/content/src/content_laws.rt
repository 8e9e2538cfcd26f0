ghost use Rattle.content.specs.Laws.{ContentLength, ContentWritten, ContentGrown, ContentShrunk, ContentCut, ContentKept, ContentBeside, NeverRefused};

// What becomes of a file's bytes: after a write, with more or fewer sectors, with a smaller size, and while others are written.
pub fn contents_follow() -> bool
    ensures length { ContentLength }
    ensures written { ContentWritten }
    ensures grown { ContentGrown }
    ensures shrunk { ContentShrunk }
    ensures cut { ContentCut }
    ensures kept { ContentKept }
    ensures beside { ContentBeside }
{
    true
}

// On good sectors no read and no write is refused.
pub fn good_sectors_serve() -> bool
    ensures { NeverRefused }
{
    true
}
