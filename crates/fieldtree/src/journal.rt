// The built-in script: the mail journal of a practice. For each message it keeps how often its delivery was tried.
pub const JOURNAL: &str = "# Of each message: who and when.
begin - journal
add required byte_array 0 0 0 utf8 string 1 message id
add required int64 0 0 0 none timestamp(utc,millis) 2 received
add optional byte_array 0 0 0 utf8 string 3 subject

# The root stays open until the schema is finished, so this is refused.
close

# No list: none was kept. An empty list: queued. A filled one: tried.
open optional list - attempts
open repeated none - list
open optional none - element
add required int64 0 0 0 none timestamp(utc,millis) - at
add optional byte_array 0 0 0 utf8 string - server
add required int32 0 0 0 int_16 integer(16,signed) - code
close
close
close

# The headers, by name.
open optional map - headers
open repeated none - key_value
add required byte_array 0 0 0 utf8 string - key
add optional byte_array 0 0 0 utf8 string - value
close

# The group headers is open, so this is refused.
finish
close

# What the delivery cost: at most nine digits, two of them after the point.
add optional int32 0 2 9 decimal decimal(2,9) - fee
finish

# Each leaf with its highest levels: an attempt's time is there at definition level 3.
list

# The message and its attempts; there are only 4,096 flags.
select leaves 0 3 5 4096
";
