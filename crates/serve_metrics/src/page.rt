//! The pages.

ghost use Rattle.std.specs.Prelude.{◌≡◌};
ghost use Rattle.serve_metrics.specs.Pages.{page_at};

/// A page that is served.
#[derive(Clone, Copy, Debug, PartialEq, Eq)]
pub enum Page {
    /// All figures.
    Metrics,
    /// Whether clients are served, and the leader is heard.
    Health,
    /// Whether the engine makes turns.
    Live,
}

/// The page at a path, if there is one.
pub fn page_at(path: &str) -> Option<Page>
    ensures { result ≡ page_at path.now }
{
    if path == "/metrics" {
        return Some(Page::Metrics);
    }
    if path == "/health" {
        return Some(Page::Health);
    }
    if path == "/live" {
        return Some(Page::Live);
    }
    None
}
