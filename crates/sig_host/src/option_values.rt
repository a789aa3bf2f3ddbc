//! What the values of the options ask for.

ghost use Rattle.std.specs.Prelude.{◌≡◌, ◌≤◌, None, IfSome, option_map, option_and_then};
ghost use Rattle.sig_layout.specs.declared.policy.Policy.TheVariants.{Auto};
ghost use Rattle.sig_host.specs.Words.{
  after_churn,
  generate_of,
  number_within,
  policy_of,
  setting_or,
  within,
  IsPolicyInRange,
};

use crate::settings::MOST_CHURN;
use sig_edge::are_digits;
use sig_layout::Policy;
use sig_script::MOST_CALLS;

/// The number, where it lies between these two.
fn within(least: u32, most: u32, number: u32) -> Option<u32>
    ensures number { result ≡ within least most number }
    ensures range { IfSome result (λ n. (least ≤ n) × (n ≤ most)) }
{
    if least <= number && number <= most {
        Some(number)
    } else {
        None
    }
}

/// The number that the text spells in decimal digits, where it lies between these two.
fn number_within(least: u32, most: u32, text: &str) -> Option<u32>
    ensures number { result ≡ number_within least most text.now }
    ensures range { IfSome result (λ n. (least ≤ n) × (n ≤ most)) }
{
    if !are_digits(text) {
        return None;
    }
    match text.parse::<u32>() {
        Ok(number) => within(least, most, number),
        Err(_) => None,
    }
}

/// The number that the text spells, from 1 to this one; without a text the default.
pub(crate) fn number_or(default: u32, most: u32, text: Option<&str>) -> Option<u32>
    requires least { 1 ≤ default }
    requires most { default ≤ most }
    ensures number { result ≡ setting_or default (number_within 1 most) (option_map (λ t. t.now) text.entry) }
    ensures range { IfSome result (λ n. (1 ≤ n) × (n ≤ most)) }
{
    match text {
        None => Some(default),
        Some(text) => number_within(1, most, text),
    }
}

/// What follows `churn:` in the text, where it begins so.
fn after_churn(text: &str) -> Option<&str>
    ensures { option_map (λ t. t.now) result ≡ after_churn text.now }
{
    text.strip_prefix("churn:")
}

/// The policy that switches after so many puts and fetches, of a text `churn:N`.
fn churn_of(text: &str) -> Option<Policy>
    ensures policy { result ≡ option_map Policy.Churn (option_and_then (number_within 1 MOST_CHURN) (after_churn text.now)) }
    ensures range { IfSome result IsPolicyInRange }
{
    let count = number_within(1, MOST_CHURN, after_churn(text)?)?;
    Some(Policy::Churn(count))
}

/// The policy that the text names.
fn policy_of(text: &str) -> Option<Policy>
    ensures policy { result ≡ policy_of text.now }
    ensures range { IfSome result IsPolicyInRange }
{
    if text == "never" {
        Some(Policy::Never)
    } else if text == "always" {
        Some(Policy::Always)
    } else if text == "auto" {
        Some(Policy::Auto)
    } else {
        churn_of(text)
    }
}

/// The policy that the text names; without a text [`Policy::Auto`].
pub(crate) fn policy_or_auto(text: Option<&str>) -> Option<Policy>
    ensures policy { result ≡ setting_or Auto policy_of (option_map (λ t. t.now) text.entry) }
    ensures range { IfSome result IsPolicyInRange }
{
    match text {
        None => Some(Policy::Auto),
        Some(text) => policy_of(text),
    }
}

/// The calls that the text asks for; without a text there are none.
pub(crate) fn calls_or_none(text: Option<&str>) -> Option<Option<u32>>
    ensures calls { result ≡ setting_or None generate_of (option_map (λ t. t.now) text.entry) }
    ensures range { IfSome result (λ calls. IfSome calls (λ n. (1 ≤ n) × (n ≤ MOST_CALLS))) }
{
    match text {
        None => Some(None),
        Some(text) => Some(Some(number_within(1, MOST_CALLS, text)?)),
    }
}
