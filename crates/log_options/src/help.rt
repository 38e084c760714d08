//! The end of `--help`.

/// Examples, exit statuses, and further reading.
pub const AFTER_OPTIONS: &str = "Examples:
  tlslog capture.pcap
  tcpdump -i eth0 -U -w - | tlslog -
  tlslog --format csv --fields ts,server_name,version,outcome *.pcap > log.csv
  tlslog --messages capture.pcap | jq .

Exit status:
  0  everything was read, or the reader of the output closed it
  1  an input is not a capture, or is truncated
  2  the arguments are wrong
  3  memory ran out, or a file can't be opened, read or written

More: man tlslog (docs/tlslog.1); docs/TLSLOG.md describes every field";
