//! Request lines, and what is replied to them.

/// A push of the one span b1 of the trace a1, with the name x.
pub const PUSH_X: &str =
    r#"push {"resourceSpans":[{"scopeSpans":[{"spans":[{"traceId":"000000000000000000000000000000a1","spanId":"00000000000000b1","parentSpanId":"","name":"x","startTimeUnixNano":"1","endTimeUnixNano":"2"}]}]}]}"#;

/// The same span again, with the name y.
pub const PUSH_Y: &str =
    r#"push {"resourceSpans":[{"scopeSpans":[{"spans":[{"traceId":"000000000000000000000000000000a1","spanId":"00000000000000b1","parentSpanId":"","name":"y","startTimeUnixNano":"1","endTimeUnixNano":"2"}]}]}]}"#;

/// The trace a1 as a reply tells it after the first push, repeated or not.
pub const TRACE_X: &str =
    r#"{"resourceSpans":[{"resource":{"attributes":[]},"scopeSpans":[{"scope":{"attributes":[],"name":"","version":""},"spans":[{"attributes":[],"endTimeUnixNano":"2","kind":0,"name":"x","parentSpanId":"","spanId":"00000000000000b1","startTimeUnixNano":"1","status":{"code":0,"message":""},"traceId":"000000000000000000000000000000a1"}]}]}]}"#;

/// The look-up of the trace a1.
pub const LOOK_A1: &str = "trace 000000000000000000000000000000a1";

/// The reply to the first push of a store.
pub const PUSHED_0: &str = "ok push 0 accepted=1 rejected=0 skipped=0\n";
