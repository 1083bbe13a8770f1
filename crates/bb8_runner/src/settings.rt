//! The settings of a script's first line, and messages about a bad one: a text, and the word of the
//! line that it is about.
ghost use Rattle.std.specs.Prelude.{◌≡◌, [], Ok, Err, map, IfOk, IfSome, option_map, true, not};
ghost use Rattle.std.specs.Duration.{as_nanos};
ghost use Rattle.bb8_runner.specs.Words.{settings_of, default_settings, is_lawful, is_unset_or_above_zero, is_unset_or_at_most, list_any};
ghost use Rattle.bb8_runner.specs.Opening.{cut, on_or_off, strategy_of, limit_of, with_setting, expected_value, value_error, is_named, with_new, with_field, unlawful_error, if_lawful, with_fields, settings_of_fields, settings_of_line};
ghost use Rattle.bb8_runner.specs.Grammar.{number_of, said};

use crate::grammar::{EXPECTED_NUMBER, Message, fields_of, number, small_number};
use bb8_core::api::{Config, QueueStrategy};
use std::alloc::{AllocError, Global};
use std::str;
use std::time::Duration;

fn on_or_off(value: &str) -> Option<bool>
    ensures { result ≡ on_or_off value.now }
{
    match value {
        "on" => Some(true),
        "off" => Some(false),
        _ => None,
    }
}

fn strategy_of(value: &str) -> Option<QueueStrategy>
    ensures { result ≡ strategy_of value.now }
{
    match value {
        "fifo" => Some(QueueStrategy::Fifo),
        "lifo" => Some(QueueStrategy::Lifo),
        _ => None,
    }
}

/// Parses a duration in nanoseconds.
fn span_of(value: &str) -> Option<Duration>
    ensures { option_map as_nanos result ≡ number_of 64 value.now }
{
    Some(Duration::from_nanos(number(value)?))
}

#[tactic(auto, unfolding(crate::specs::Opening::limit_of))]
fn limit_of(value: &str) -> Option<Option<Duration>>
    ensures { option_map (option_map as_nanos) result ≡ limit_of 64 value.now }
{
    if value == "none" {
        return Some(None);
    }
    Some(Some(span_of(value)?))
}

#[tactic(auto, unfolding(crate::specs::Opening::limit_of))]
fn small_limit_of(value: &str) -> Option<Option<u32>>
    ensures { result ≡ limit_of 32 value.now }
{
    if value == "none" {
        return Some(None);
    }
    Some(Some(small_number(value)?))
}

/// Changes a setting. Returns None if there is no such setting, or its value is not allowed.
#[tactic(auto, unfolding(crate::specs::Opening::with_setting))]
fn with_setting(config: Config, name: &str, value: &str) -> Option<Config>
    ensures { option_map settings_of result
        ≡ with_setting (settings_of config) name.now value.now }
{
    let mut config = config;
    match name {
        "max_size" => config.max_size = small_number(value)?,
        "min_idle" => config.min_idle = small_limit_of(value)?,
        "check" => config.test_on_check_out = on_or_off(value)?,
        "test_after" => config.test_after = span_of(value)?,
        "lifetime" => config.max_lifetime = limit_of(value)?,
        "idle" => config.idle_timeout = limit_of(value)?,
        "timeout" => config.connection_timeout = span_of(value)?,
        "reaper" => config.reaper_rate = span_of(value)?,
        "retry" => config.retry_connection = on_or_off(value)?,
        "strategy" => config.queue_strategy = strategy_of(value)?,
        _ => return None,
    }
    Some(config)
}

/// Returns the text about another value of a setting. None if there is no such setting.
#[tactic(auto, unfolding(crate::specs::Opening::expected_value))]
fn expected_value(name: &str) -> Option<&'static str>
    ensures { option_map (λ x. x.now) result ≡ expected_value name.now }
{
    match name {
        "max_size" => Some("expected a number below 2^32 without leading zeros, found"),
        "min_idle" => Some("expected \"none\" or a number below 2^32 without leading zeros, found"),
        "check" | "retry" => Some("expected \"on\" or \"off\", found"),
        "test_after" | "timeout" | "reaper" => Some(EXPECTED_NUMBER),
        "lifetime" | "idle" => {
            Some("expected \"none\" or a number below 2^64 without leading zeros, found")
        }
        "strategy" => Some("expected \"fifo\" or \"lifo\", found"),
        _ => None,
    }
}

fn value_error<'a>(name: &'a str, value: &'a str) -> Message<'a>
    ensures { (result.0.now, result.1.now) ≡ value_error name.now value.now }
{
    match expected_value(name) {
        Some(expected) => (expected, value),
        None => ("unknown setting", name),
    }
}

/// Returns a setting's name and value, which its first `=` separates.
fn cut(field: &str) -> Option<(&str, &str)>
    ensures { option_map (λ x. (x.0.now, x.1.now)) result ≡ cut field.now }
{
    field.split_once('=')
}

/// Returns whether a field is a setting of this name.
fn is_named(name: &str, field: &str) -> bool
    ensures { result ≡ is_named name.now field.now }
{
    match cut(field) {
        Some((other, _)) => other == name,
        None => false,
    }
}

fn are_named(name: &str, fields: &[&str]) -> bool
    ensures { result ≡ list_any (is_named name.now) (map (λ x. x.now) fields.now) }
{
    fields.iter().any(|field| is_named(name, field))
}

/// Changes the setting of a field. Fails if the field is none, or one before it has its name.
#[tactic(auto, unfolding(crate::specs::Opening::with_field))]
fn with_field<'a>(before: &[&'a str], config: Config, field: &'a str) -> Result<Config, Message<'a>>
    ensures { said settings_of result
        ≡ with_field (map (λ x. x.now) before.now) (settings_of config) field.now }
{
    let Some((name, value)) = cut(field) else {
        return Err(("expected \"=\" and a value after", field));
    };
    let Some(config) = with_setting(config, name, value) else {
        return Err(value_error(name, value));
    };
    if are_named(name, before) {
        return Err(("repeated setting", name));
    }
    Ok(config)
}

fn is_zero(limit: Option<Duration>) -> bool
    ensures { result ≡ not (is_unset_or_above_zero (option_map as_nanos limit)) }
{
    match limit {
        Some(limit) => limit.as_nanos() == 0,
        None => false,
    }
}

fn is_above(least: Option<u32>, most: u32) -> bool
    ensures { result ≡ not (is_unset_or_at_most least most) }
{
    match least {
        Some(least) => least > most,
        None => false,
    }
}

fn unlawful_error(config: Config) -> Message<'static>
    ensures { (result.0.now, result.1.now) ≡ unlawful_error (settings_of config) }
{
    if config.max_size == 0 {
        ("expected more than 0 for", "max_size")
    } else if is_above(config.min_idle, config.max_size) {
        ("expected at most max_size for", "min_idle")
    } else if is_zero(config.max_lifetime) {
        ("expected more than 0 for", "lifetime")
    } else if is_zero(config.idle_timeout) {
        ("expected more than 0 for", "idle")
    } else if config.connection_timeout.as_nanos() == 0 {
        ("expected more than 0 for", "timeout")
    } else {
        ("expected more than 0 for", "reaper")
    }
}

#[tactic(auto, unfolding(crate::specs::Opening::if_lawful))]
fn if_lawful(config: Config) -> Result<Config, Message<'static>>
    ensures lawful { IfOk result (λ config. is_lawful (settings_of config) ≡ true) }
    ensures read { said settings_of result ≡ if_lawful (settings_of config) }
{
    if config.is_lawful() {
        Ok(config)
    } else {
        Err(unlawful_error(config))
    }
}

/// Returns the configuration with these settings, each at most once. Fails with the first field
/// that is none, or if no pool accepts the whole.
fn config_with<'a>(fields: &[&'a str]) -> Result<Config, Message<'a>>
    ensures lawful { IfOk result (λ config. is_lawful (settings_of config) ≡ true) }
    ensures read { said settings_of result ≡ with_fields [] default_settings
        (map (λ x. x.now) fields.now) }
{
    let mut config = Config::default();
    for i in 0..fields.len() {
        match with_field(&fields[..i], config, fields[i]) {
            Ok(more) => config = more,
            Err(error) => return Err(error),
        }
    }
    if_lawful(config)
}

/// Parses a configuration: the word `config`, and settings.
#[tactic(auto, unfolding(crate::specs::Opening::settings_of_fields))]
pub fn config_of_fields<'a>(fields: &[&'a str]) -> Result<Config, Message<'a>>
    ensures lawful { IfOk result (λ config. is_lawful (settings_of config) ≡ true) }
    ensures read { said settings_of result ≡ settings_of_fields (map (λ x. x.now) fields.now) }
{
    match fields {
        [] => Err(("expected \"config\", found", "")),
        [word, settings @ ..] => {
            if *word == "config" {
                config_with(settings)
            } else {
                Err(("expected \"config\", found", word))
            }
        }
    }
}

/// Parses a configuration. Returns None if it is none that a pool accepts. Fails if memory is
/// refused.
pub fn config_of(alloc: Global, line: &[u8]) -> Result<Option<Config>, AllocError>
    ensures lawful { IfOk result (λ config. IfSome config
        (λ config. is_lawful (settings_of config) ≡ true)) }
    ensures read { IfOk result (λ config. option_map settings_of config ≡ settings_of_line
        line.now) }
{
    let Ok(text) = str::from_utf8(line) else {
        return Ok(None);
    };
    let fields = fields_of(alloc, text)?;
    Ok(config_of_fields(fields.as_slice()).ok())
}
