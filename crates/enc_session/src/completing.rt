// The settings of a command, completed by a film's head.
ghost use Rattle.std.specs.Prelude.{◌≡◌, ◌≤◌};
ghost use Rattle.spec_film.specs.Films.{AllowedHead};
ghost use Rattle.spec_session.specs.Settings.{has_many_slices as many_slices, has_small_cpb as small_cpb, has_bad_delay as bad_delay, need_of as need_for, level_of as level_for, with_level, completed};

use level_limits::{Need, fits, least};
use spec_film::FilmHead;
use spec_words::command::{SettingFault, Settings};
use whole_numbers::in_macroblocks;

// Whether there are more than 16 slices, or more than rows of macroblocks.
fn has_many_slices(settings: &Settings, head: &FilmHead) -> bool
    requires { AllowedHead head.now }
    ensures { result ≡ many_slices settings.now head.now }
{
    16 < settings.slices || in_macroblocks(head.height) < settings.slices
}

// Whether the buffer has no room for a picture's share and 48 bits.
fn has_small_cpb(settings: &Settings, head: &FilmHead) -> bool
    ensures { result ≡ small_cpb settings.now head.now }
{
    let room = settings.cpb as u128 * head.num as u128;
    room < settings.rate as u128 * head.den as u128 + 48 * head.num as u128
}

// Whether there is no delay, or the buffer is over-full behind it.
fn has_bad_delay(settings: &Settings) -> bool
    ensures { result ≡ bad_delay settings.now }
{
    settings.delay == 0
        || 90000 * (settings.cpb as u64) < settings.rate as u64 * settings.delay as u64
}

// What the stream needs of a level.
fn need_of(settings: &Settings, head: &FilmHead) -> Need
    requires { AllowedHead head.now }
    ensures { result ≡ need_for settings.now head.now }
{
    Need {
        width_mbs: in_macroblocks(head.width),
        height_mbs: in_macroblocks(head.height),
        num: head.num,
        den: head.den,
        rate: settings.rate as u64,
        cpb: settings.cpb as u64,
        refs: settings.refs,
    }
}

// The level that is asked for, or the least that fits.
fn level_of(settings: &Settings, head: &FilmHead) -> Result<u8, SettingFault>
    requires { AllowedHead head.now }
    ensures { result ≡ level_for settings.now head.now }
{
    let need = need_of(settings, head);
    if settings.level == 0 {
        return match least(&need) {
            Some(level) => Ok(level),
            None => Err(SettingFault::NoLevel),
        };
    }
    if fits(settings.level, &need) {
        return Ok(settings.level);
    }
    Err(SettingFault::Level)
}

/// The level of the completed settings, or the first fault of those that need the film.
#[tactic(auto, unfolding(spec_session::specs::Settings::completed))]
pub(crate) fn completed_level(settings: &Settings, head: &FilmHead) -> Result<u8, SettingFault>
    requires { AllowedHead head.now }
    ensures { completed settings.now head.now ≡ with_level settings.now head.now result }
{
    if has_many_slices(settings, head) {
        return Err(SettingFault::Slices);
    }
    if has_small_cpb(settings, head) {
        return Err(SettingFault::SmallCpb);
    }
    if has_bad_delay(settings) {
        return Err(SettingFault::Delay);
    }
    level_of(settings, head)
}
