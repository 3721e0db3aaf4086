// The parts of a log, by the names that they have there.

use serde::Serialize;

#[derive(Drop, Serialize)]
#[serde(rename_all = "camelCase")]
pub(crate) struct Log {
    #[serde(rename = "$schema")]
    pub(crate) schema: &'static str,
    pub(crate) version: &'static str,
    pub(crate) runs: Vec<Run>,
}

#[derive(Drop, Serialize)]
#[serde(rename_all = "camelCase")]
pub(crate) struct Run {
    pub(crate) tool: Tool,
    /// What columns count.
    pub(crate) column_kind: &'static str,
    pub(crate) results: Vec<Told>,
}

#[derive(Drop, Serialize)]
pub(crate) struct Tool {
    pub(crate) driver: Driver,
}

#[derive(Drop, Serialize)]
pub(crate) struct Driver {
    pub(crate) name: &'static str,
    pub(crate) version: &'static str,
    pub(crate) rules: Vec<Rule>,
}

/// A kind of findings.
#[derive(Drop, Serialize)]
#[serde(rename_all = "camelCase")]
pub(crate) struct Rule {
    pub(crate) id: String,
    pub(crate) short_description: Message,
}

#[derive(Drop, Serialize)]
pub(crate) struct Message {
    pub(crate) text: String,
}

/// A finding.
#[derive(Drop, Serialize)]
#[serde(rename_all = "camelCase")]
pub(crate) struct Told {
    pub(crate) rule_id: String,
    pub(crate) level: &'static str,
    pub(crate) message: Message,
    pub(crate) locations: Vec<Location>,
    pub(crate) related_locations: Vec<Location>,
}

#[derive(Drop, Serialize)]
#[serde(rename_all = "camelCase")]
pub(crate) struct Location {
    pub(crate) physical_location: PhysicalLocation,
    #[serde(skip_serializing_if = "Option::is_none")]
    pub(crate) message: Option<Message>,
}

#[derive(Drop, Serialize)]
#[serde(rename_all = "camelCase")]
pub(crate) struct PhysicalLocation {
    pub(crate) artifact_location: ArtifactLocation,
    #[serde(skip_serializing_if = "Option::is_none")]
    pub(crate) region: Option<Region>,
}

#[derive(Drop, Serialize)]
pub(crate) struct ArtifactLocation {
    pub(crate) uri: String,
}

/// A stretch of a file; its end is behind the last letter.
#[derive(Drop, Serialize)]
#[serde(rename_all = "camelCase")]
pub(crate) struct Region {
    pub(crate) start_line: u64,
    pub(crate) start_column: u64,
    pub(crate) end_line: u64,
    pub(crate) end_column: u64,
}
