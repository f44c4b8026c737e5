ghost use Rattle.system_parts.specs.Completion.{RemovalComesLast, CompletionsEnd, CompletionsGoKeyByKey, CompletionsAskForTheirKeys};

/// The removal is asked exactly where all shadows were done.
pub fn removal_comes_last()
    ensures { RemovalComesLast }
{}

/// A completion ends within one step for each key, and one more to remove the commit.
pub fn completions_end()
    ensures { CompletionsEnd }
{}

/// After a step on a key the completion is that of the keys behind it.
pub fn completions_go_key_by_key()
    ensures { CompletionsGoKeyByKey }
{}

/// A finish sets the shadow at exactly its keys, and removes the commit; an undo erases at exactly its keys.
pub fn completions_ask_for_their_keys()
    ensures { CompletionsAskForTheirKeys }
{}
