//! The main laws, each as the contract of a function that does nothing.

ghost use Rattle.component_terms.specs.Laws.{CountIsReached, NumberIsCount, LeastAreFew};

/// Edges have exactly as many components as the computed count says.
pub fn components_are_counted()
    ensures reached { CountIsReached }
    ensures only { NumberIsCount }
{}

/// Vertices that each are the least of their component are at most as many.
pub fn least_are_few()
    ensures { LeastAreFew }
{}
