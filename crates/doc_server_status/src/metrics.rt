//! The counters as Prometheus reads them (its text format, version 0.0.4).

ghost use Rattle.std.specs.Prelude.{◌≡◌, ◌++◌, OnOk, decimal, string_bytes};
ghost use Rattle.doc_server_status.specs.Metrics.{connection_metrics, heading, journal_metrics, metric, metrics_text, reload_metric, reply_metrics, requests_metric, sample, standing_metrics, turn_metric};

use crate::counters::Counters;
use crate::replies::Replies;
use crate::standing::Standing;
use doc_page_parts::failure::Memory;
use doc_page_parts::heap::String;
use std::fmt::Write;

/// Writes all metrics.
#[tactic(auto, unfolding(crate::specs::Metrics::metrics_text))]
pub fn push_metrics(out: &mut String, counters: &Counters) -> Result<(), Memory>
    ensures { OnOk result
        (string_bytes out.new ≡ string_bytes out.old ++ metrics_text counters.now) }
{
    push_requests(out, counters.replies)?;
    push_replies(out, counters)?;
    push_connections(out, counters)?;
    push_turn(out, counters.turn_micros_most)?;
    push_standing(out, &counters.standing)?;
    Ok(())
}

/// Writes what a metric is, and its kind.
#[tactic(auto, unfolding(crate::specs::Metrics::heading))]
fn push_heading(out: &mut String, kind: &str, name: &str, help: &str) -> Result<(), Memory>
    ensures { OnOk result
        (string_bytes out.new ≡ string_bytes out.old ++ heading kind.now name.now help.now) }
{
    write!(out, "# HELP {name} {help}\n# TYPE {name} {kind}\n")?;
    Ok(())
}

/// Writes a sample.
#[tactic(auto, unfolding(crate::specs::Metrics::sample))]
fn push_sample(out: &mut String, name: &str, value: u64) -> Result<(), Memory>
    ensures { OnOk result
        (string_bytes out.new ≡ string_bytes out.old ++ sample name.now (decimal value)) }
{
    write!(out, "{name} {value}\n")?;
    Ok(())
}

/// Writes a metric of one sample.
#[tactic(auto, unfolding(crate::specs::Metrics::metric))]
fn push_metric(
    out: &mut String,
    kind: &str,
    name: &str,
    help: &str,
    value: u64,
) -> Result<(), Memory>
    ensures { OnOk result
        (string_bytes out.new ≡ string_bytes out.old ++ metric kind.now name.now help.now value) }
{
    push_heading(out, kind, name, help)?;
    push_sample(out, name, value)?;
    Ok(())
}

/// Writes how many requests were answered, by class.
#[tactic(auto, unfolding(crate::specs::Metrics::requests_metric))]
fn push_requests(out: &mut String, replies: Replies) -> Result<(), Memory>
    ensures { OnOk result
        (string_bytes out.new ≡ string_bytes out.old ++ requests_metric replies) }
{
    push_heading(
        out,
        "counter",
        "docs_requests_total",
        "Requests that were answered, by the class of the code.",
    )?;
    push_sample(
        out,
        "docs_requests_total{class=\"2xx\"}",
        replies.successful,
    )?;
    push_sample(
        out,
        "docs_requests_total{class=\"3xx\"}",
        replies.redirected,
    )?;
    push_sample(out, "docs_requests_total{class=\"4xx\"}", replies.refused)?;
    push_sample(out, "docs_requests_total{class=\"5xx\"}", replies.failed)?;
    Ok(())
}

/// Writes what was replied.
#[tactic(auto, unfolding(crate::specs::Metrics::reply_metrics))]
fn push_replies(out: &mut String, counters: &Counters) -> Result<(), Memory>
    ensures { OnOk result
        (string_bytes out.new ≡ string_bytes out.old ++ reply_metrics counters.now) }
{
    push_metric(
        out,
        "counter",
        "docs_unauthorized_total",
        "Requests that were answered 401.",
        counters.unauthorized,
    )?;
    push_metric(
        out,
        "counter",
        "docs_edits_total",
        "Edits that were answered, 201 or 204.",
        counters.edits,
    )?;
    push_metric(
        out,
        "counter",
        "docs_bytes_total",
        "Bytes of replies.",
        counters.bytes,
    )?;
    Ok(())
}

/// Writes what is known of connections.
#[tactic(auto, unfolding(crate::specs::Metrics::connection_metrics))]
fn push_connections(out: &mut String, counters: &Counters) -> Result<(), Memory>
    ensures { OnOk result
        (string_bytes out.new ≡ string_bytes out.old ++ connection_metrics counters.now) }
{
    push_metric(
        out,
        "gauge",
        "docs_connections",
        "Connections that stand.",
        counters.connections,
    )?;
    push_metric(
        out,
        "gauge",
        "docs_connections_most",
        "Connections that stood at once at most.",
        counters.connections_most,
    )?;
    Ok(())
}

/// Writes how long the longest turn took.
#[tactic(auto, unfolding(crate::specs::Metrics::turn_metric))]
fn push_turn(out: &mut String, micros: u64) -> Result<(), Memory>
    ensures { OnOk result (string_bytes out.new ≡ string_bytes out.old ++ turn_metric micros) }
{
    push_heading(
        out,
        "gauge",
        "docs_turn_seconds_max",
        "Seconds of the longest turn since the last look.",
    )?;
    write!(out, "docs_turn_seconds_max {micros}e-6\n")?;
    Ok(())
}

/// Writes what stands, and what came of reloads.
#[tactic(auto, unfolding(crate::specs::Metrics::standing_metrics))]
fn push_standing(out: &mut String, standing: &Standing) -> Result<(), Memory>
    ensures { OnOk result
        (string_bytes out.new ≡ string_bytes out.old ++ standing_metrics standing.now) }
{
    push_metric(
        out,
        "gauge",
        "docs_pages",
        "Pages that stand.",
        standing.pages,
    )?;
    push_journal(out, standing)?;
    push_reloads(out, standing)?;
    Ok(())
}

/// Writes what is known of the journal.
#[tactic(auto, unfolding(crate::specs::Metrics::journal_metrics))]
fn push_journal(out: &mut String, standing: &Standing) -> Result<(), Memory>
    ensures { OnOk result
        (string_bytes out.new ≡ string_bytes out.old ++ journal_metrics standing.now) }
{
    push_metric(
        out,
        "gauge",
        "docs_journal_bytes",
        "Bytes of the journal's records.",
        standing.journal_bytes,
    )?;
    push_metric(
        out,
        "gauge",
        "docs_record",
        "Records of the journal in the site.",
        standing.records(),
    )?;
    Ok(())
}

/// Writes what came of reloads, and when one was last done.
#[tactic(auto, unfolding(crate::specs::Metrics::reload_metric))]
fn push_reloads(out: &mut String, standing: &Standing) -> Result<(), Memory>
    ensures { OnOk result
        (string_bytes out.new ≡ string_bytes out.old ++ reload_metric standing.now) }
{
    push_heading(
        out,
        "counter",
        "docs_reload_total",
        "Lines `reload` that were heard, by what came of them.",
    )?;
    push_sample(
        out,
        "docs_reload_total{result=\"done\"}",
        standing.reloads_done,
    )?;
    push_sample(
        out,
        "docs_reload_total{result=\"refused\"}",
        standing.reloads_refused,
    )?;
    push_metric(
        out,
        "gauge",
        "docs_reload_time_seconds",
        "Seconds since 1970 at which a reload was last done, 0 where none was.",
        standing.reload_seconds,
    )?;
    Ok(())
}
