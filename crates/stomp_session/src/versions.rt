//! Protocol negotiation.

ghost use Rattle.std.specs.Prelude.{◌≡◌};
ghost use Rattle.stomp_session.specs.Versions.{has_version, trimmed_text, without_front_spaces};

/// The text without the spaces at its front.
fn without_front_spaces(mut text: &[u8]) -> &[u8]
    ensures { result.now ≡ without_front_spaces text.now }
{
    while let [b' ', rest @ ..] = text {
        text = rest;
    }
    text
}

/// The text without the spaces at both ends.
fn trimmed_text(text: &[u8]) -> &[u8]
    ensures { result.now ≡ trimmed_text text.now }
{
    let mut text = without_front_spaces(text);
    while let [rest @ .., b' '] = text {
        text = rest;
    }
    text
}

/// Whether the version is among those of an accept-version header, which commas part (STOMP 1.2,
/// "Protocol Negotiation"); that spaces round one are ignored is (our choice, not the standard's).
pub fn has_version(version: &[u8], text: &[u8]) -> bool
    ensures { result ≡ has_version version.now text.now }
{
    text.split(|b| *b == b',')
        .any(|item| trimmed_text(item) == version)
}
