//! What is true of all that nodes write. It holds no code.

ghost use Rattle.std.specs.Prelude.{ℕ};
ghost use Rattle.mb_base.specs.Shapes.{Bytes};
ghost use Rattle.mb_edge.specs.Seen.{Device, LinkState};
ghost use Rattle.mb_sched.specs.declared.configs.Config.{Config};
ghost use Rattle.mb_sched.specs.Configs.{SettingsFit};
ghost use Rattle.mb_answer.specs.Configs.{IsConfigText};
ghost use Rattle.mb_serving.specs.Nodes.{Serves};
ghost use Rattle.mb_serving.specs.Written.{WrittenRecordsAreOwn, WritesReceived, NodesLeaveRecords, KeptNodesLeaveRecords};

/// The config of a text keeps the limits of its lines.
pub fn read_configs_keep_limits()
    ensures { (text : Bytes) (c : Config) → IsConfigText text c → SettingsFit c }
{}

/// However a node ends, it has written a first part of a record's first lines and the lines of the events that it received, all of them of bytes.
pub fn nodes_write_records()
    ensures { (c : Config) (host budget status : ℕ) (sink sink' : Device) (before after : LinkState) → Serves c host budget status sink sink' before after
        → WritesReceived c host before after sink.bytes sink'.bytes }
{}

/// From the end of the record's first lines on, each first part of what a host writes is read as a record of its own entries.
pub fn written_records_are_own()
    ensures { WrittenRecordsAreOwn }
{}

/// What a node writes by the text of a config is what its host left, wherever it is cut off behind the record's first lines: `retrace` answers it with how many
/// of the events received have whole pairs of lines there.
pub fn what_nodes_write_is_left()
    ensures { NodesLeaveRecords }
{}

/// So it is of a node that opened its journal: `retrace` answers its record too, which begins with the journal's events.
pub fn what_kept_nodes_write_is_left()
    ensures { KeptNodesLeaveRecords }
{}
