//! The options whose values are texts, and the flags.
use crate::commands::Argument;
use crate::help;

/// Of `Settings::always`.
pub(crate) const ALWAYS: Argument = Argument::Texts {
    name: "always",
    shown: "COND",
    help: help::ALWAYS,
};

/// Of `Settings::always_files`.
pub(crate) const ALWAYS_FILE: Argument = Argument::Texts {
    name: "always-file",
    shown: "FILE",
    help: help::ALWAYS_FILE,
};

/// Of `Settings::when_quiet`.
pub(crate) const DEADLOCK_UNLESS: Argument = Argument::Text {
    name: "deadlock-unless",
    shown: "COND",
    help: help::DEADLOCK_UNLESS,
};

/// Of `Settings::within`.
pub(crate) const WITHIN: Argument = Argument::Text {
    name: "within",
    shown: "COND",
    help: help::WITHIN,
};

/// Of `Settings::dot`.
pub(crate) const DOT: Argument = Argument::Text {
    name: "dot",
    shown: "FILE",
    help: help::DOT,
};

/// Of `Settings::dot_only`.
pub(crate) const DOT_ONLY: Argument = Argument::Texts {
    name: "dot-only",
    shown: "NAME",
    help: help::DOT_ONLY,
};

/// Of `Settings::quiet`.
pub(crate) const QUIET: Argument = Argument::Text {
    name: "quiet",
    shown: "FILE",
    help: help::QUIET,
};

/// Of `RunSettings::script`.
pub(crate) const SCRIPT: Argument = Argument::Text {
    name: "script",
    shown: "FILE",
    help: help::SCRIPT,
};

/// Of `ShowSettings::names`.
pub(crate) const ONLY: Argument = Argument::Texts {
    name: "only",
    shown: "NAME",
    help: help::ONLY,
};

/// Of `ShowSettings::form`, a page of HTML.
pub(crate) const HTML: Argument = Argument::Flag {
    name: "html",
    help: help::HTML,
};

/// Of `ShowSettings::form`, lines of JSON.
pub(crate) const JSON: Argument = Argument::Flag {
    name: "json",
    help: help::JSON,
};

/// Of `Settings::trace`.
pub(crate) const TRACE: Argument = Argument::Flag {
    name: "trace",
    help: help::TRACE,
};

/// Of `Settings::table`.
pub(crate) const TABLE: Argument = Argument::Flag {
    name: "table",
    help: help::TABLE,
};

/// Of `Settings::progress`.
pub(crate) const PROGRESS: Argument = Argument::Flag {
    name: "progress",
    help: help::PROGRESS,
};
