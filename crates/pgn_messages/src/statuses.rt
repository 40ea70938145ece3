#![tactic(auto, using(crate::proofs::BytesLaws::joins))]

ghost use Rattle.std.specs.Prelude.{◌≡◌, ◌++◌, flat_map, OnOk};
ghost use Rattle.pgn_messages.specs.Served.{changed_status, statuses};

use crate::Bytes;
use pgn_requests::{Setting, Settings, setting_name};
use std::alloc::AllocError;

/// A message for each reported setting that changed, put at the end.
pub fn put_statuses(
    bytes: &mut Bytes,
    before: &Settings,
    after: &Settings,
) -> Result<(), AllocError>
    ensures { OnOk result (bytes.new ≡ bytes.old ++ statuses before.entry.now after.entry.now) }
{
    let reported = [
        Setting::ApplicationName,
        Setting::ClientEncoding,
        Setting::DateStyle,
        Setting::DefaultTransactionReadOnly,
        Setting::InHotStandby,
        Setting::IntegerDatetimes,
        Setting::IntervalStyle,
        Setting::IsSuperuser,
        Setting::ServerEncoding,
        Setting::ServerVersion,
        Setting::SessionAuthorization,
        Setting::StandardConformingStrings,
        Setting::TimeZone,
    ];
    put_each_changed(bytes, &reported, before, after)
}

// A message for each of these settings that changed.
fn put_each_changed(
    bytes: &mut Bytes,
    reported: &[Setting],
    before: &Settings,
    after: &Settings,
) -> Result<(), AllocError>
    ensures { OnOk result (bytes.new ≡ bytes.old
        ++ flat_map (changed_status before.entry.now.now after.entry.now.now) reported.now) }
{
    for setting in reported {
        put_changed(bytes, *setting, before, after)?;
    }
    Ok(())
}

// The message of a setting, if it changed.
fn put_changed(
    bytes: &mut Bytes,
    setting: Setting,
    before: &Settings,
    after: &Settings,
) -> Result<(), AllocError>
    ensures { OnOk result (bytes.new ≡ bytes.old
        ++ changed_status before.entry.now.now after.entry.now.now setting) }
{
    let value = after.value(setting);
    if before.value(setting) == value {
        Ok(())
    } else {
        bytes.put_status(setting_name(setting).as_bytes(), value)
    }
}
