//! What a sweep shows. The call does nothing, and ensures its law.
ghost use Rattle.frontier_pool.specs.Laws.{NewHandsBatch};

/// What hands that had done nothing did in a sweep is all its items, each once.
pub fn new_hands_batch()
    ensures { NewHandsBatch }
{}
