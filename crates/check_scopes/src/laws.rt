//! Laws of scopes.

ghost use Rattle.check_scopes.specs.Laws.{MeetsAlike, WaitsAlike, LetsAlike, ExpandsAlike, AgentsAlike, ScopesHaveStages, TestsInOrder};

/// For masks and stages of formats 1 and 2, stages that come before or after others in a pipeline change nothing: what waits for a
/// mask meets what another one waits for just where their stages meet (`meets`, `expands`), and so of a mask and a stage (`waits`,
/// `lets`); the same agents are named (`agents`), since scopes have the stages of their masks (`stages`). Of any mask, what waits for
/// the late fragment tests waits for the early ones, and what the early ones wait for the late ones wait for (`tests`). It does
/// nothing.
pub fn scope_laws()
    ensures meets { MeetsAlike }
    ensures waits { WaitsAlike }
    ensures lets { LetsAlike }
    ensures expands { ExpandsAlike }
    ensures agents { AgentsAlike }
    ensures stages { ScopesHaveStages }
    ensures tests { TestsInOrder }
{}
