//! The topics of the help.

/// A subject that has its own page.
#[derive(Clone, Copy, Debug, PartialEq, Eq)]
pub enum Topic {
    /// The rows of a setup, and the form of each code.
    Setup,
    /// The messages and questions of stations.
    Lines,
    /// Count lists, and the answers to them.
    Counts,
    /// The verdicts.
    Verdicts,
    /// The files of a record: how to back them up, move them and restore them.
    Files,
}

impl Topic {
    ghost use Rattle.std.specs.Prelude.{◌≡◌, ◌≢◌, IfNone, IfSome};
    ghost use Rattle.command_words.specs.declared.topic.Topic.{Topic};
    ghost use Rattle.command_words.specs.Topics.{topic_name};

    /// Returns the topic of this name. None if no topic has it.
    pub fn named(name: &str) -> Option<Topic>
        ensures some { IfSome result (λ topic. topic_name topic ≡ name.now) }
        ensures none { IfNone result ((topic : Topic) → topic_name topic ≢ name.now) }
    {
        match name {
            "setup" => Some(Topic::Setup),
            "lines" => Some(Topic::Lines),
            "counts" => Some(Topic::Counts),
            "verdicts" => Some(Topic::Verdicts),
            "files" => Some(Topic::Files),
            _ => None,
        }
    }
}
