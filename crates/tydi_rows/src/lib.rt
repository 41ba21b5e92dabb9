//! Tests of the tool: words and files on one side, the status and the bytes of both sinks on the other, each run over the store and the
//! sinks in memory.
#![tactic(auto)]

#[cfg(test)]
mod bench_rows;
#[cfg(test)]
mod carry_rows;
#[cfg(test)]
mod compare_rows;
#[cfg(test)]
mod decode_tables;
#[cfg(test)]
mod design_rows;
#[cfg(test)]
mod drive_tables;
#[cfg(test)]
mod edge;
#[cfg(test)]
mod expect_rows;
#[cfg(test)]
mod failing_rows;
#[cfg(test)]
mod job_tables;
#[cfg(test)]
mod link_rows;
#[cfg(test)]
mod plan_rows;
#[cfg(test)]
mod project_tables;
#[cfg(test)]
mod refusal_tables;
#[cfg(test)]
mod row;
#[cfg(test)]
mod running;
#[cfg(test)]
mod sim_tables;
#[cfg(test)]
mod split_tables;
#[cfg(test)]
mod tests;
#[cfg(test)]
mod trace_tables;
#[cfg(test)]
mod value_rows;
#[cfg(test)]
mod vcd_rows;
#[cfg(test)]
mod verilog_rows;
#[cfg(test)]
mod watch_rows;
