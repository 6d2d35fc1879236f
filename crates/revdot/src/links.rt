//! Links, as a story has them.

ghost use Rattle.std.specs.Prelude.{◌≡◌, ◌++◌, OnOk, codes, decimal, string_bytes};
ghost use Rattle.fr_route.specs.Texts.{spaced_links};

use std::alloc::AllocError;
use std::fmt::Write;

/// Appends for each link a space, its tail, `>` and its head.
pub fn push_links(story: &mut String, links: &[(u32, u32)]) -> Result<(), AllocError>
    ensures { OnOk result (string_bytes story.new ≡ string_bytes story.old ++ spaced_links links.now) }
{
    for link in links {
        push_link(story, *link)?;
    }
    Ok(())
}

fn push_link(story: &mut String, link: (u32, u32)) -> Result<(), AllocError>
    ensures { OnOk result
        (string_bytes story.new
        ≡ string_bytes story.old ++ (codes " " ++ (decimal link.0 ++ (codes ">" ++ decimal link.1)))) }
{
    write!(story, " {}>{}", link.0, link.1)
}
