// The type that the definition of dependence speaks of.
use word::types::Inputs;

// Which of the sources the logic function depends on.
pub type Depends = Inputs<bool>;
